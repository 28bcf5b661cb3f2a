// The second output: one line for each old node, its new number.
ghost use Rattle.std.specs.Prelude.{◌≡◌, ◌+◌, ◌≤◌, length};
ghost use Rattle.lines.specs.Writing.{put_at};
ghost use Rattle.sweeping.specs.Sweeping.{number_line, number_file, new_numbers};
ghost use Rattle.sweeping.specs.Engine.Parts.{NumbersRoom};

use crate::removal::Removal;
use lines::node::NodeLines;
use lines::write::put_bytes;

// The number of a node that went.
// Stays: FFFF is what its line says, and so the number that is written.
const NO_NUMBER: u16 = 0xFFFF;

// High byte first.
fn write_number(out: &mut [u8], pos: usize, number: u16)
    requires { pos + 5 ≤ length out.old }
    ensures { out.new ≡ put_at out.old pos (number_line number) }
{
    put_bytes(out, pos, &number.to_be_bytes());
    out[pos + 4] = 0x0A;
}

pub fn write_numbers(nodes: &NodeLines, out: &mut [u8])
    requires { NumbersRoom nodes.now out.old }
    ensures { out.new ≡ put_at out.old 0 (number_file (new_numbers nodes.now)) }
{
    let mut removal = Removal::new();
    let mut next: u16 = 0;
    for i in 0..nodes.len() {
        let line = nodes.line(i);
        if removal.takes(&line) {
            write_number(out, 5 * i, NO_NUMBER);
        } else {
            write_number(out, 5 * i, next);
            next += 1;
        }
    }
}
