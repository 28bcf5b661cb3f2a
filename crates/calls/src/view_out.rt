// The view's lines, written from the words of what was shown.
// Stays: a node is a word of the lent slice, kind and mark the bytes of a line.
ghost use Rattle.std.specs.Prelude.{◌≡◌, ◌+◌, ◌≤◌, ◌<◌, ◌/◌, length};
ghost use Rattle.lines.specs.Nodes.{untouched_mark};
ghost use Rattle.lines.specs.Writing.{line_bytes};
ghost use Rattle.lines.specs.Engine.Writes.{headed, Written, WroteLines};
ghost use Rattle.calls.specs.Engine.Parts.{word_line, view_lines, ViewRoom};

use crate::room::SHOWN;
use lines::kind::{Kind, Mark};
use lines::node::PROGRAM_NUMBER;
use lines::write::{Head, write_line};
use runs::inputs::Inputs;
use values::nodes::{WordOrigin, depth_of, origin_of};

// A node's fields: those of the master's line of its number, or of what an entry of the program makes.
#[tactic(auto, using(std::proofs::lemmas::List::get_or_past, crate::specs::Theorems::ShownNumbers::line_is), unfolding(runs::specs::Grounds::shown_line, values::specs::Values::element_of, values::specs::Engine::Words::node_of))]
pub fn head_of(inputs: &Inputs, word: u32) -> Head
    requires { word / 0x10000 < 256 }
    ensures { let line = word_line inputs.now.entries inputs.now.nodes word in headed result line.text ≡ line }
{
    let depth = depth_of(word) as u8;
    match origin_of(word) {
        WordOrigin::Master(number) if (number as usize) < inputs.nodes.len() => {
            let line = inputs.nodes.line(number as usize);
            Head {
                depth,
                kind: line.kind(),
                mark: line.mark(),
                number,
            }
        }
        WordOrigin::Master(number) => unmarked_head(depth, Kind::Text as u8, number),
        WordOrigin::Program(_) if inputs.is_element(word) => {
            unmarked_head(depth, Kind::Element as u8, PROGRAM_NUMBER)
        }
        WordOrigin::Program(_) => unmarked_head(depth, Kind::Text as u8, PROGRAM_NUMBER),
    }
}

fn unmarked_head(depth: u8, kind: u8, number: u16) -> Head
    ensures { result ≡ record { depth = depth; kind = kind; mark = untouched_mark; number = number } }
{
    Head {
        depth,
        kind,
        mark: Mark::Untouched as u8,
        number,
    }
}

fn write_word(inputs: &Inputs, word: u32, out: &mut [u8], pos: usize) -> usize
    requires word_bound { word / 0x10000 < 256 }
    requires word_in_bounds { pos + length (line_bytes (word_line inputs.now.entries inputs.now.nodes word)) ≤ length out.old }
    ensures { let line = word_line inputs.now.entries inputs.now.nodes word in
        Written out.old out.new pos (line_bytes line) result }
{
    write_line(out, pos, head_of(inputs, word), &inputs.text(word))
}

// The place behind the last line.
pub fn write_view(inputs: &Inputs, work: &[u32], shown: usize, out: &mut [u8]) -> usize
    requires { ViewRoom inputs.now.entries inputs.now.nodes work.now shown out.old }
    ensures { WroteLines (view_lines inputs.now.entries inputs.now.nodes work.now shown) out.old out.new result }
{
    let mut pos = 0;
    // Stays: the words lie behind SHOWN in the lent slice.
    for i in 0..shown {
        pos = write_word(inputs, work[SHOWN + i], out, pos);
    }
    pos
}
