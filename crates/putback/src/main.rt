// Puts view.hex back into master.hex through program.hex.
#![tactic(auto)]

use calls::put_back::put_back;
use calls::reply::Reply;
use calls::room::{OUT_ROOM, WORK_ROOM};
use shell::print::{print_answer, print_unreadable};
use shell::read::{NODES_ROOM, PROGRAM_ROOM, read_file};
use std::io;
use std::rt::Files;

fn returned(files: &impl Files, out: &mut [u8]) -> io::Result<Reply> {
    let mut master = [0u8; NODES_ROOM];
    let mut program = [0u8; PROGRAM_ROOM];
    let mut view = [0u8; NODES_ROOM];
    let master = read_file(files, b"master.hex", &mut master)?;
    let program = read_file(files, b"program.hex", &mut program)?;
    let view = read_file(files, b"view.hex", &mut view)?;
    let mut work = [0u32; WORK_ROOM];
    Ok(put_back(master, program, view, out, &mut work))
}

// Stays: like the main of show; one helper for both, lent the call as a closure, is no plainer.
fn main(rt: HostRuntime) -> io::Result<()> {
    let mut to = io::writer(&rt);
    let mut out = [0u8; OUT_ROOM];
    match returned(&rt, &mut out) {
        Ok(reply) => print_answer(&mut to, reply, &out),
        Err(_) => print_unreadable(&mut to),
    }
}
