// The edited view: replies 8 to 10, and the words of what its lines bring.
ghost use Rattle.std.specs.Prelude.{◌≡◌, ◌≤◌, ◌<◌, length};
ghost use Rattle.lines.specs.Texts.{same_text};
ghost use Rattle.lines.specs.Writing.{put_at};
ghost use Rattle.lines.specs.Nodes.{line_at};
ghost use Rattle.lines.specs.Views.{counted_line};
ghost use Rattle.calls.specs.Engine.Parts.{ShownWords, word_line, view_lines, ViewJudged, Summed, first_with, brought_word, brought_words};

use crate::beside::{difference, mark_counted};
use crate::refusal::Refusal;
use crate::room::{LINES, SHOWN};
use lines::kind::Mark;
use lines::node::NodeLines;
use lines::scan::{File, scan_lines};
use runs::inputs::Inputs;
use values::standings::{CHANGED, DELETED, UNTOUCHED};

// How many lines the view has. Leaves in `starts` where each begins.
pub fn judge_view(
    inputs: &Inputs,
    work: &[u32],
    shown: usize,
    view: &[u8],
    starts: &mut [u16],
) -> Result<usize, Refusal>
    requires shown_words { ShownWords inputs.now.entries work.now shown }
    requires in_bounds { 128 ≤ length starts.old }
    ensures { ViewJudged (view_lines inputs.now.entries inputs.now.nodes work.now shown) view.now starts.new result }
{
    let n = scan_lines(File::View, view, starts).map_err(Refusal::ViewLine)?;
    let lines = NodeLines::new(view, &starts[0..n]);
    if let Some(line) = difference(inputs, work, shown, &lines) {
        return Err(Refusal::ViewDiffers(line));
    }
    if let Some(line) = lines.first_program_mark() {
        return Err(Refusal::ProgramMark(line));
    }
    Ok(n)
}

// The sum of each line's text: texts with different sums need not be compared.
fn sum_texts(view: &NodeLines, sums: &mut [u32])
    requires { length view.now ≤ length sums.old }
    ensures { Summed view.now sums.new }
{
    // Stays: the lines are read by their number.
    for k in 0..view.len() {
        sums[k] = view.line(k).text().sum();
    }
}

// Whether lines j and i have the same text: with different sums no byte is looked at.
fn alike(view: &NodeLines, sums: &[u32], j: usize, i: usize) -> bool
    requires { (j < length view.now) × (i < length view.now) × Summed view.now sums.now }
    ensures { result ≡ same_text (line_at view.now j).text (line_at view.now i).text }
{
    sums[j] == sums[i] && view.line(j).text().is_same(&view.line(i).text())
}

// The first line with the text of line i.
fn first_same(view: &NodeLines, sums: &[u32], i: usize) -> usize
    requires { (i < length view.now) × Summed view.now sums.now }
    ensures { (result ≡ first_with (line_at view.now i).text 0 view.now) × (result ≤ i) }
{
    (0..i).find(|j| alike(view, sums, *j, i)).unwrap_or(i)
}

// What line i brings beside the fresh one of this word, as a word.
fn brought(inputs: &Inputs, word: u32, view: &NodeLines, sums: &[u32], i: usize) -> u32
    requires { (i < length view.now) × (length view.now ≤ 128) × Summed view.now sums.now }
    ensures { let fresh = word_line inputs.now.entries inputs.now.nodes word in
        result ≡ brought_word view.now (counted_line fresh (line_at view.now i)) }
{
    let mark = mark_counted(inputs, word, &view.line(i));
    // Stays: the bytes of marks are compared, as in `mark_counted`.
    if mark == Mark::Changed as u8 {
        return CHANGED + first_same(view, sums, i) as u32;
    }
    if mark == Mark::Deleted as u8 {
        return DELETED;
    }
    UNTOUCHED
}

// The words of the view's standings, at SHOWN, in the place of the fresh lines' words.
pub fn bring_view(inputs: &Inputs, view: &NodeLines, work: &mut [u32])
    requires { (length view.now ≤ 128) × (256 ≤ length work.old) }
    ensures { let fresh = view_lines inputs.now.entries inputs.now.nodes work.old (length view.now) in
        work.new ≡ put_at work.old 128 (brought_words fresh view.now) }
{
    let mut sums = [0u32; LINES];
    sum_texts(view, &mut sums);
    // Stays: the words lie behind SHOWN in the lent slice, and the lines are read by their number.
    for i in 0..view.len() {
        let word = work[SHOWN + i];
        work[SHOWN + i] = brought(inputs, word, view, &sums, i);
    }
}
