// The call put back.
ghost use Rattle.std.specs.Prelude.{◌≡◌, List, ℕ, ◌+◌, ◌≤◌, length};
ghost use Rattle.lines.specs.Verdicts.{first_from};
ghost use Rattle.values.specs.Standings.{is_clash};
ghost use Rattle.values.specs.Engine.Words.{standings_at};
ghost use Rattle.calls.specs.Judging.{judged_put_back};
ghost use Rattle.calls.specs.Outcomes.{out_room, outcome, put_back_call};
ghost use Rattle.calls.specs.Engine.Parts.{put_back_room, Settles, SettledBy, Carriable, CarriedBack, Comparable, ComparedBack};

use crate::reach::{Places, reach};
use crate::refusal::Refusal;
use crate::reply::Reply;
use crate::room::{HANDED, LINES, OUT_ROOM, SHOWN, WORK_ROOM};
use crate::view_in::{bring_view, judge_view};
use crate::write_master::write_master;
use lines::node::NodeLines;
use runs::at::At;
use runs::inputs::Inputs;
use runs::put::{MARKS, put};
use values::extents::Extent;
use values::standings::CLASH;

// The first clash among the standings at HANDED.
fn first_clash(work: &[u32], len: usize) -> Option<usize>
    requires { 256 + len ≤ length work.now }
    ensures { (texts : ℕ → List ℕ) → result ≡ first_from is_clash 0 (standings_at texts work.now 256 len) }
{
    let standings = &work[HANDED..HANDED + len];
    standings.iter().position(|word| *word == CLASH)
}

// Reply 11, or the lines handed back: the source lies at place 0, the view's standings come to SHOWN, the master's to HANDED.
fn carry(
    inputs: &Inputs,
    view: &NodeLines,
    out: &mut [u8],
    work: &mut [u32],
) -> Result<usize, Refusal>
    requires { Carriable inputs.now.entries inputs.now.ends.now inputs.now.nodes view.now work.old out.old }
    ensures { CarriedBack inputs.now.entries inputs.now.nodes view.now out.old out.new result }
{
    bring_view(inputs, view, work);
    let mut marks = [0u32; MARKS];
    let brought = Extent {
        start: SHOWN,
        len: view.len(),
    };
    let count = inputs.nodes.len();
    put(inputs, work, &mut marks, At::root(count, HANDED, brought));
    if let Some(node) = first_clash(work, count) {
        return Err(Refusal::Clash(node));
    }
    Ok(write_master(&inputs.nodes, view, work, out))
}

// Replies 8 to 11: the view beside the fresh one, then its edits.
fn compared(
    inputs: &Inputs,
    shown: usize,
    view: &[u8],
    out: &mut [u8],
    work: &mut [u32],
) -> Result<usize, Refusal>
    requires { Comparable inputs.now.entries inputs.now.ends.now inputs.now.nodes shown work.old out.old }
    ensures { ComparedBack inputs.now.entries inputs.now.nodes view.now out.old out.new result }
{
    let mut starts = [0u16; LINES];
    let n = judge_view(inputs, work, shown, view, &mut starts)?;
    let lines = NodeLines::new(view, &starts[0..n]);
    carry(inputs, &lines, out, work)
}

// The place behind the lines handed back.
fn write_handed_back(
    master: &[u8],
    program: &[u8],
    view: &[u8],
    out: &mut [u8],
    work: &mut [u32],
) -> Result<usize, Refusal>
    requires { (out_room ≤ length out.old) × (put_back_room ≤ length work.old) }
    ensures { SettledBy (judged_put_back master.now program.now view.now) out.old out.new result }
{
    let mut places = Places::new();
    let Places {
        starts,
        ends,
        lines,
    } = &mut places;
    let reached = reach(master, program, true, starts, ends, lines, work)?;
    let inputs = places.inputs(program, master, reached);
    compared(&inputs, reached.shown, view, out, work)
}

// What is judged once there is room; public, since a C form brings a work slice that suffices.
pub fn judged_put_back(
    master: &[u8],
    program: &[u8],
    view: &[u8],
    out: &mut [u8],
    work: &mut [u32],
) -> Reply
    requires { (out_room ≤ length out.old) × (put_back_room ≤ length work.old) }
    ensures { Settles (judged_put_back master.now program.now view.now) out.old out.new result }
{
    Reply::of(write_handed_back(master, program, view, out, work))
}

// Stays: the test of room is not shared with the other calls; over a closure that is lent two slices its contract is longer than these lines.
pub fn put_back(
    master: &[u8],
    program: &[u8],
    view: &[u8],
    out: &mut [u8],
    work: &mut [u32],
) -> Reply
    ensures { outcome result.number result.place result.length out.new work.new
        ≡ put_back_call master.now program.now view.now out.old work.old }
{
    if out.len() < OUT_ROOM || work.len() < WORK_ROOM {
        return Reply::of(Err(Refusal::Room));
    }
    let room = &mut work[0..WORK_ROOM];
    let reply = judged_put_back(master, program, view, out, room);
    room.fill(0);
    reply
}
