// Sweeps master.hex.
#![tactic(auto)]

use calls::room::{NUMBERS_ROOM, OUT_ROOM};
use calls::sweep::sweep;
use shell::numbers::number_bytes;
use shell::print::{print_answer, print_first, print_unreadable};
use shell::read::{NODES_ROOM, read_file};
use std::io;

// Stays: apart from the mains of show and putback: one file, and a second output. 0 is the reply's number.
fn main(rt: HostRuntime) -> io::Result<()> {
    let mut to = io::writer(&rt);
    let mut master = [0u8; NODES_ROOM];
    let Ok(master) = read_file(&rt, b"master.hex", &mut master) else {
        return print_unreadable(&mut to);
    };
    let mut out = [0u8; OUT_ROOM];
    let mut numbers = [0u8; NUMBERS_ROOM];
    let reply = sweep(master, &mut out, &mut numbers);
    print_answer(&mut to, reply, &out)?;
    if reply.number == 0 {
        print_first(&mut to, &numbers, number_bytes(master))?;
    }
    Ok(())
}
