// Replies 2 to 7, which showing and putting back judge first.
ghost use Rattle.std.specs.Prelude.{◌≡◌, ◌≤◌, length, replicate, take};
ghost use Rattle.lines.specs.Engine.Starts.{lines_of, entries_of};
ghost use Rattle.calls.specs.Engine.Parts.{show_room, ReachedBy};

use crate::files::{judge_master, judge_program};
use crate::refusal::Refusal;
use crate::room::{ENTRIES, LINES};
use crate::run_program::run_program;
use lines::entry::EntryLines;
use lines::node::NodeLines;
use runs::inputs::Inputs;

// How many entries, master nodes and shown nodes there are.
// Stays: counts, since no contract speaks of lent places from which the answer borrows.
#[derive(Clone, Copy)]
pub struct Reached {
    pub entries: usize,
    pub nodes: usize,
    pub shown: usize,
}

// What a call's own arrays hold: where the program's entries begin, the place behind each one's subtree, and where the master's lines begin.
#[derive(Drop)]
pub struct Places {
    pub starts: [u16; LINES],
    pub ends: [u8; ENTRIES],
    pub lines: [u16; LINES],
}

impl Places {
    pub fn new() -> Places
        ensures { result ≡ record { starts = replicate 128 0; ends = replicate 96 0; lines = replicate 128 0 } }
    {
        Places {
            starts: [0; LINES],
            ends: [0; ENTRIES],
            lines: [0; LINES],
        }
    }

    // What a run reads, by the counts of what is noted here.
    pub fn inputs<'a>(&'a self, program: &'a [u8], master: &'a [u8], reached: Reached) -> Inputs<'a>
        requires { (reached.entries ≤ 96) × (reached.nodes ≤ 128) }
        ensures entries { result.entries ≡ entries_of program.now (take reached.entries self.now.starts) }
        ensures ends { result.ends.now ≡ take reached.entries self.now.ends }
        ensures nodes { result.nodes ≡ lines_of master.now (take reached.nodes self.now.lines) }
    {
        Inputs {
            entries: EntryLines::new(program, &self.starts[0..reached.entries]),
            ends: &self.ends[0..reached.entries],
            nodes: NodeLines::new(master, &self.lines[0..reached.nodes]),
        }
    }
}

// Leaves where entries and lines begin and subtrees end, and in the work slice the source and what is shown.
// Stays: whether it is put back to is a bool, as in the rule of specs/Judging.
pub fn reach(
    master: &[u8],
    program: &[u8],
    putting: bool,
    starts: &mut [u16],
    ends: &mut [u8],
    lines: &mut [u16],
    work: &mut [u32],
) -> Result<Reached, Refusal>
    requires in_bounds { (128 ≤ length starts.old) × (96 ≤ length ends.old) × (128 ≤ length lines.old) }
    requires show_room_in_bounds { show_room ≤ length work.old }
    ensures { ReachedBy putting master.now program.now starts.new ends.new lines.new work.new result }
{
    let entries = judge_program(program, starts, ends)?;
    let nodes = judge_master(master, lines, putting)?;
    let inputs = Inputs {
        entries: EntryLines::new(program, &starts[0..entries]),
        ends: &ends[0..entries],
        nodes: NodeLines::new(master, &lines[0..nodes]),
    };
    let shown = run_program(&inputs, work)?;
    Ok(Reached {
        entries,
        nodes,
        shown,
    })
}
