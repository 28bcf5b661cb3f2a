// The master's lines as they are handed back, written from the words of their standings.
// Stays: a standing is a word of the lent slice, a mark the byte of a line.
ghost use Rattle.std.specs.Prelude.{◌≡◌, ◌+◌, ◌≤◌, length};
ghost use Rattle.lines.specs.Writing.{line_bytes};
ghost use Rattle.lines.specs.Engine.Texts.{text_bytes};
ghost use Rattle.lines.specs.Engine.Writes.{Written, WroteLines};
ghost use Rattle.values.specs.Standings.{hands_back};
ghost use Rattle.values.specs.Engine.Words.{standing_of};
ghost use Rattle.calls.specs.Engine.Parts.{mark_left, texts_of, handed_lines, HandingRoom};

use crate::room::HANDED;
use lines::kind::Mark;
use lines::node::{NodeLine, NodeLines};
use lines::text::Text;
use lines::write::{Head, write_line};
use values::standings::{CHANGED, DELETED};

// The mark that a standing leaves on a line with this one.
#[tactic(auto, unfolding(crate::specs::Engine::Parts::mark_left))]
fn mark_left(mark: u8, word: u32) -> u8
    ensures { result ≡ mark_left mark word }
{
    match word {
        CHANGED.. => Mark::Changed as u8,
        DELETED => Mark::Deleted as u8,
        _ => mark,
    }
}

// The text that a standing leaves: a changed line has a view line's.
fn text_left<'a>(line: &NodeLine<'a>, view: &NodeLines<'a>, word: u32) -> Text<'a>
    ensures { text_bytes result ≡ (hands_back line.now (standing_of (texts_of view.now) word)).text }
{
    if word < CHANGED {
        return line.text();
    }
    let j = (word - CHANGED) as usize;
    if view.len() <= j {
        return Text::empty();
    }
    view.line(j).text()
}

// The line of a node with its standing.
fn write_handed(line: &NodeLine, view: &NodeLines, word: u32, out: &mut [u8], pos: usize) -> usize
    requires { let standing = standing_of (texts_of view.now) word in
        pos + length (line_bytes (hands_back line.now standing)) ≤ length out.old }
    ensures { let standing = standing_of (texts_of view.now) word in
        Written out.old out.new pos (line_bytes (hands_back line.now standing)) result }
{
    let head = Head {
        depth: line.depth(),
        kind: line.kind(),
        mark: mark_left(line.mark(), word),
        number: line.number(),
    };
    write_line(out, pos, head, &text_left(line, view, word))
}

// The place behind the last line.
pub fn write_master(nodes: &NodeLines, view: &NodeLines, work: &[u32], out: &mut [u8]) -> usize
    requires { HandingRoom nodes.now view.now work.now out.old }
    ensures { WroteLines (handed_lines nodes.now view.now work.now) out.old out.new result }
{
    let mut pos = 0;
    // Stays: the words lie behind HANDED in the lent slice, and the lines are read by their number.
    for k in 0..nodes.len() {
        let standing = work[HANDED + k];
        pos = write_handed(&nodes.line(k), view, standing, out, pos);
    }
    pos
}
