// Shows master.hex through program.hex.
#![tactic(auto)]

use calls::reply::Reply;
use calls::room::{OUT_ROOM, WORK_ROOM};
use calls::show::show;
use shell::print::{print_answer, print_unreadable};
use shell::read::{NODES_ROOM, PROGRAM_ROOM, read_file};
use std::io;
use std::rt::Files;

fn shown(files: &impl Files, out: &mut [u8]) -> io::Result<Reply> {
    let mut master = [0u8; NODES_ROOM];
    let mut program = [0u8; PROGRAM_ROOM];
    let master = read_file(files, b"master.hex", &mut master)?;
    let program = read_file(files, b"program.hex", &mut program)?;
    let mut work = [0u32; WORK_ROOM];
    Ok(show(master, program, out, &mut work))
}

// Stays: like the main of putback; one helper for both, lent the call as a closure, is no plainer.
fn main(rt: HostRuntime) -> io::Result<()> {
    let mut to = io::writer(&rt);
    let mut out = [0u8; OUT_ROOM];
    match shown(&rt, &mut out) {
        Ok(reply) => print_answer(&mut to, reply, &out),
        Err(_) => print_unreadable(&mut to),
    }
}
