// A view's lines beside the fresh ones. The fresh view is never written: each of its lines is known by its word at SHOWN.
ghost use Rattle.std.specs.Prelude.{◌≡◌};
ghost use Rattle.lines.specs.Views.{first_difference, counted_line};
ghost use Rattle.calls.specs.Engine.Parts.{word_line, view_lines, ShownWords};

use crate::room::SHOWN;
use crate::view_out::head_of;
use lines::kind::Mark;
use lines::node::{NodeLine, NodeLines};
use runs::inputs::Inputs;

// The mark that spares a line its bytes: whether they are the shown ones is not asked.
const CHANGED: u8 = Mark::Changed as u8;

// The first line at which the view differs from the fresh one; given up inside a line's bytes at the first difference. The bytes are looked at in the order of `same_text`.
// Stays: the loop over the lines is left by its label with the place, which a rule of the project asks for.
pub fn difference(inputs: &Inputs, work: &[u32], shown: usize, view: &NodeLines) -> Option<usize>
    requires { ShownWords inputs.now.entries work.now shown }
    ensures { result ≡ first_difference view.now (view_lines inputs.now.entries inputs.now.nodes work.now shown) }
{
    let mut i: usize = 0;
    'lines: loop {
        if view.len() <= i {
            if shown <= i {
                break 'lines None;
            }
            break 'lines Some(i);
        }
        if shown <= i {
            break 'lines Some(i);
        }
        let line = view.line(i);
        let word = work[SHOWN + i];
        if !line.has_head(head_of(inputs, word)) {
            break 'lines Some(i);
        }
        if line.mark() != CHANGED {
            let text = line.text();
            let fresh = inputs.text(word);
            if text.len() != fresh.len() {
                break 'lines Some(i);
            }
            for j in (0..text.len()).rev() {
                if !text.has_same_byte(&fresh, j) {
                    break 'lines Some(i);
                }
            }
        }
        i += 1;
    }
}

// The mark that counts: a line marked 01 with the fresh line's bytes was saved and not touched.
pub fn mark_counted(inputs: &Inputs, word: u32, line: &NodeLine) -> u8
    ensures { let fresh = word_line inputs.now.entries inputs.now.nodes word in result ≡ (counted_line fresh line.now).mark }
{
    let mark = line.mark();
    // Stays: the bytes of marks are compared; through Mark::of no arm proves by itself, and four answers are needed in place of two.
    if mark == Mark::Changed as u8 && line.text().is_same(&inputs.text(word)) {
        return Mark::Untouched as u8;
    }
    mark
}
