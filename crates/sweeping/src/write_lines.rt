// The first output: the lines that stay, from the front.
ghost use Rattle.lines.specs.Engine.Writes.{WroteLines};
ghost use Rattle.sweeping.specs.Sweeping.{swept};
ghost use Rattle.sweeping.specs.Engine.Parts.{SweepRoom};

use crate::removal::Removal;
use lines::kind::Mark;
use lines::node::NodeLines;
use lines::write::{Head, write_line};

// Without their marks, numbered from 0; the place behind the last line.
pub fn write_swept(nodes: &NodeLines, out: &mut [u8]) -> usize
    requires { SweepRoom nodes.now out.old }
    ensures { WroteLines (swept nodes.now) out.old out.new result }
{
    let mut removal = Removal::new();
    let mut pos = 0;
    let mut count: u16 = 0;
    for i in 0..nodes.len() {
        let line = nodes.line(i);
        if !removal.takes(&line) {
            let head = Head {
                depth: line.depth(),
                kind: line.kind(),
                // Stays: a mark is a byte of a line.
                mark: Mark::Untouched as u8,
                number: count,
            };
            pos = write_line(out, pos, head, &line.text());
            count += 1;
        }
    }
    pos
}
