// The call show.
ghost use Rattle.std.specs.Prelude.{◌≡◌, ◌≤◌, length};
ghost use Rattle.calls.specs.Judging.{judged_show};
ghost use Rattle.calls.specs.Outcomes.{out_room, outcome, show_call};
ghost use Rattle.calls.specs.Engine.Parts.{show_room, Settles, SettledBy};

use crate::reach::{Places, reach};
use crate::refusal::Refusal;
use crate::reply::Reply;
use crate::room::{OUT_ROOM, WORK_ROOM};
use crate::view_out::write_view;

// The place behind the lines of what is shown.
fn write_shown(
    master: &[u8],
    program: &[u8],
    out: &mut [u8],
    work: &mut [u32],
) -> Result<usize, Refusal>
    requires { (out_room ≤ length out.old) × (show_room ≤ length work.old) }
    ensures { SettledBy (judged_show master.now program.now) out.old out.new result }
{
    let mut places = Places::new();
    let Places {
        starts,
        ends,
        lines,
    } = &mut places;
    let reached = reach(master, program, false, starts, ends, lines, work)?;
    let inputs = places.inputs(program, master, reached);
    Ok(write_view(&inputs, work, reached.shown, out))
}

// What is judged once there is room; public, since a C form brings a work slice that suffices.
pub fn judged_show(master: &[u8], program: &[u8], out: &mut [u8], work: &mut [u32]) -> Reply
    requires { (out_room ≤ length out.old) × (show_room ≤ length work.old) }
    ensures { Settles (judged_show master.now program.now) out.old out.new result }
{
    Reply::of(write_shown(master, program, out, work))
}

// Stays: the test of room is not shared with the other calls; over a closure that is lent two slices its contract is longer than these lines.
pub fn show(master: &[u8], program: &[u8], out: &mut [u8], work: &mut [u32]) -> Reply
    ensures { outcome result.number result.place result.length out.new work.new
        ≡ show_call master.now program.now out.old work.old }
{
    if out.len() < OUT_ROOM || work.len() < WORK_ROOM {
        return Reply::of(Err(Refusal::Room));
    }
    let room = &mut work[0..WORK_ROOM];
    let reply = judged_show(master, program, out, room);
    room.fill(0);
    reply
}
