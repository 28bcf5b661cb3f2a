// Writing a node's line into a slice: what stands before and behind it is kept.
ghost use Rattle.std.specs.Prelude.{◌≡◌, [], ◌∷◌, ◌+◌, ◌*◌, ◌≤◌, length};
ghost use Rattle.std.proofs.lemmas.List.Edits.{sets};
ghost use Rattle.lines.specs.Hex.{encode};
ghost use Rattle.lines.specs.Writing.{line_bytes};
ghost use Rattle.lines.specs.Engine.Texts.{text_bytes};
ghost use Rattle.lines.specs.Engine.Writes.{headed, Written};

use crate::hex::hex_digit;
use crate::text::Text;

// A line's fields before its text.
// Stays: kind and mark are bytes, as a line that was read may have any there, and it is answered for.
#[derive(Clone, Copy)]
pub struct Head {
    pub depth: u8,
    pub kind: u8,
    pub mark: u8,
    pub number: u16,
}

#[tactic(auto, unfolding(crate::specs::Hex::encode))]
pub fn put_byte(out: &mut [u8], pos: usize, b: u8)
    requires { pos + 2 ≤ length out.old }
    ensures { out.new ≡ sets out.old pos (encode (b ∷ [])) }
{
    out[pos] = hex_digit(b / 16);
    out[pos + 1] = hex_digit(b % 16);
}

#[tactic(auto, unfolding(crate::specs::Hex::encode))]
pub fn put_bytes(out: &mut [u8], pos: usize, bytes: &[u8])
    requires { pos + 2 * length bytes.now ≤ length out.old }
    ensures { out.new ≡ sets out.old pos (encode bytes.now) }
{
    for (i, b) in bytes.iter().enumerate() {
        put_byte(out, pos + 2 * i, *b);
    }
}

// Digit by digit, as it stands there.
// Stays: an index, as a text's digits are no slice to zip with: where the file ends, digits 0 stand for the rest.
// Stays: by value, so that where it stands need not be read again behind each digit that is written.
fn put_text(out: &mut [u8], pos: usize, text: Text)
    requires { pos + 2 * length (text_bytes text) ≤ length out.old }
    ensures { out.new ≡ sets out.old pos (encode (text_bytes text.entry)) }
{
    for i in 0..2 * text.len() as u16 {
        out[pos + i as usize] = text.digit(i);
    }
}

// The line of `head` and `text`, from `pos` on; the place behind it.
pub fn write_line(out: &mut [u8], pos: usize, head: Head, text: &Text) -> usize
    requires { pos + length (line_bytes (headed head (text_bytes text.now))) ≤ length out.old }
    ensures { Written out.old out.new pos (line_bytes (headed head (text_bytes text.now))) result }
{
    let [high, low] = head.number.to_be_bytes();
    let n = text.len();
    put_bytes(out, pos, &[head.depth, head.kind, head.mark, high, low, n]);
    put_text(out, pos + 12, *text);
    let end = pos + 12 + 2 * n as usize;
    out[end] = 0x0A;
    end + 1
}
