// One scanner for program, master and view: each line's form, how many there may be, and where each begins.
ghost use Rattle.std.specs.Prelude.{◌≡◌, true, ◌≤◌, length};
ghost use Rattle.lines.specs.Lines.{pairs_then_end};
ghost use Rattle.lines.specs.Files.{form_of, limit_of};
ghost use Rattle.lines.specs.Engine.Starts.{pairs_end, Scanned};

use crate::form::{entry_form, node_form};
use crate::hex::is_hex;

// Stays: no equality, as it is matched and never compared.
#[derive(Clone, Copy)]
pub enum File {
    Program,
    Master,
    View,
}

impl File {
    // The line's pairs and its 0A were looked at when its end was found: its bytes are left.
    #[tactic(auto, using(crate::proofs::Forms::decides), unfolding(crate::specs::Files::form_of))]
    fn has_form(self, c: &[u8]) -> bool
        requires { pairs_then_end c.now ≡ true }
        ensures { result ≡ form_of self c.now }
    {
        match self {
            File::Program => entry_form(c),
            File::Master | File::View => node_form(c),
        }
    }

    #[tactic(auto, unfolding(crate::specs::Files::limit_of))]
    fn limit(self) -> usize
        ensures { result ≡ limit_of self }
    {
        match self {
            File::Program => 96,
            File::Master | File::View => 128,
        }
    }
}

// "each line ended by byte 0A"
const LINE_END: u8 = b'\n';

// Past the line that begins at `at`, if it is whole pairs and 0A. This is the scan's only look for digits.
fn line_end(s: &[u8], at: usize) -> Option<usize>
    requires { at ≤ length s.now }
    ensures { result ≡ pairs_end s.now at }
{
    // Stays: a loop over places, as `position` over the same bytes takes nearly twice as long.
    for i in at..s.len() {
        if !is_hex(s[i]) {
            if (i - at) % 2 == 0 && s[i] == LINE_END {
                return Some(i + 1);
            }
            return None;
        }
    }
    None
}

// How many lines there are; or the first line of wrong form, or one too many.
pub fn scan_lines(file: File, s: &[u8], starts: &mut [u16]) -> Result<usize, usize>
    requires { 128 ≤ length starts.old }
    ensures { Scanned file s.now starts.old starts.new result }
{
    let limit = file.limit();
    let mut n: usize = 0;
    let mut at: usize = 0;
    // Stays: each step is as long as its line.
    while at < s.len() {
        if n == limit {
            return Err(n);
        }
        let Some(end) = line_end(s, at) else {
            return Err(n);
        };
        if !file.has_form(&s[at..end]) {
            return Err(n);
        }
        starts[n] = at as u16;
        n += 1;
        at = end;
    }
    Ok(n)
}
