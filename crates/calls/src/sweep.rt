// The call sweep.
ghost use Rattle.std.specs.Prelude.{◌≡◌, false, ◌≤◌, length};
ghost use Rattle.calls.specs.Judging.{judged_master};
ghost use Rattle.calls.specs.Outcomes.{outcome, out_room};
ghost use Rattle.calls.specs.Sweeping.{numbers_room, swept_into, sweep_call};
ghost use Rattle.calls.specs.Engine.Parts.{SweptBy};

use crate::files::judge_master;
use crate::refusal::Refusal;
use crate::reply::Reply;
use crate::room::{LINES, NUMBERS_ROOM, OUT_ROOM};
use lines::node::NodeLines;
use sweeping::write_lines::write_swept;
use sweeping::write_numbers::write_numbers;

// The place behind the lines that are swept.
fn write_both(master: &[u8], out: &mut [u8], numbers: &mut [u8]) -> Result<usize, Refusal>
    requires { (out_room ≤ length out.old) × (numbers_room ≤ length numbers.old) }
    ensures { SweptBy (judged_master false master.now) out.old numbers.old out.new numbers.new result }
{
    let mut starts = [0u16; LINES];
    let n = judge_master(master, &mut starts, false)?;
    let nodes = NodeLines::new(master, &starts[0..n]);
    write_numbers(&nodes, numbers);
    Ok(write_swept(&nodes, out))
}

// What is judged once there is room.
fn judged_sweep(master: &[u8], out: &mut [u8], numbers: &mut [u8]) -> Reply
    requires { (out_room ≤ length out.old) × (numbers_room ≤ length numbers.old) }
    ensures { outcome result.number result.place result.length out.new numbers.new
        ≡ swept_into (judged_master false master.now) out.old numbers.old }
{
    Reply::of(write_both(master, out, numbers))
}

// Stays: the test of room is not shared with the other calls, which are lent a work slice and not a second output.
pub fn sweep(master: &[u8], out: &mut [u8], numbers: &mut [u8]) -> Reply
    ensures { outcome result.number result.place result.length out.new numbers.new
        ≡ sweep_call master.now out.old numbers.old }
{
    if out.len() < OUT_ROOM || numbers.len() < NUMBERS_ROOM {
        return Reply::of(Err(Refusal::Room));
    }
    judged_sweep(master, out, numbers)
}
