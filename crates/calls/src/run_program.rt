// The run of a program over a whole master: replies 6 and 7.
ghost use Rattle.std.specs.Prelude.{◌≡◌, ◌≤◌, length};
ghost use Rattle.lines.specs.Writing.{put_at};
ghost use Rattle.calls.specs.Engine.Parts.{show_room, source_words, Runnable, RanBy};

use crate::refusal::Refusal;
use crate::room::SHOWN;
use lines::node::NodeLines;
use runs::at::At;
use runs::inputs::Inputs;
use runs::show::show;
use values::extents::Extent;
use values::nodes::LEVEL;

// Each master node as a word, at the foot of the work slice.
fn load(nodes: &NodeLines, work: &mut [u32])
    requires { (length nodes.now ≤ 128) × (128 ≤ length work.old) }
    ensures { work.new ≡ put_at work.old 0 (source_words 0 nodes.now) }
{
    // Stays: the lines are read by their number, and a word is a number of 32 bits in the lent slice, put together here.
    for k in 0..nodes.len() {
        work[k] = nodes.line(k).depth() as u32 * LEVEL + k as u32;
    }
}

// How many nodes are shown; leaves the source at place 0 and what is shown at SHOWN.
pub fn run_program(inputs: &Inputs, work: &mut [u32]) -> Result<usize, Refusal>
    requires runnable { Runnable inputs.now.entries inputs.now.ends.now inputs.now.nodes }
    requires show_room_in_bounds { show_room ≤ length work.old }
    ensures { RanBy inputs.now.entries inputs.now.nodes work.new result }
{
    load(&inputs.nodes, work);
    let at = At::root(inputs.nodes.len(), SHOWN, Extent { start: 0, len: 0 });
    let shown = show(inputs, work, at)?;
    Ok(shown.len)
}
