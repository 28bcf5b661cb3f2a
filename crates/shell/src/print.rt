// A call's reply as one line of hexadecimal pairs, and its output lines.
ghost use Rattle.std.specs.Prelude.{◌≡◌, ◌↔◌, ◌<◌, ◌≤◌, [], ◌∷◌, ◌++◌, length, take, false, OnOk, IfOk};
ghost use Rattle.std.specs.Bool.{IsTrue};
ghost use Rattle.std.specs.Io.KnownBytes.{Appends, Keeps};
ghost use Rattle.lines.specs.Hex.{encode};
ghost use Rattle.shell.specs.Printed.{byte_line, reply_line};

use calls::reply::Reply;
use lines::hex::hex_digit;
use std::io;
use std::io::Write;

// Stays: FF is no call's reply, but what a program prints.
const UNREADABLE: Reply = Reply {
    number: 0xFF,
    place: 0,
    length: 0,
};

// The pair of a byte, the high digit first.
#[tactic(auto, unfolding(lines::specs::Hex::encode))]
fn pair(byte: u8) -> [u8; 2]
    ensures { result ≡ encode (byte ∷ []) }
{
    [hex_digit(byte / 16), hex_digit(byte % 16)]
}

// A line of one byte.
#[tactic(auto, unfolding(crate::specs::Printed::byte_line, lines::specs::Hex::encode))]
pub fn print_byte<W: Write>(to: &mut W, byte: u8) -> io::Result<()>
    ensures { OnOk result (Appends (W.contents to.old) (W.contents to.new) (byte_line byte)) }
{
    let [high, low] = pair(byte);
    to.write_all(&[high, low, b'\n'])
}

// Number (one byte), place (two), length (two), high byte first.
#[tactic(auto, using(crate::proofs::Bytes::high_byte), unfolding(crate::specs::Printed::reply_line, lines::specs::Hex::encode))]
pub fn print_reply<W: Write>(to: &mut W, reply: Reply) -> io::Result<()>
    ensures { OnOk result (Appends (W.contents to.old) (W.contents to.new) (reply_line reply.number reply.place reply.length)) }
{
    let [place_high, place_low] = reply.place.to_be_bytes();
    let [length_high, length_low] = reply.length.to_be_bytes();
    let pairs = [
        pair(reply.number),
        pair(place_high),
        pair(place_low),
        pair(length_high),
        pair(length_low),
    ];
    let mut line = [b'\n'; 11];
    line[..10].copy_from_slice(pairs.as_flattened());
    to.write_all(&line)
}

// "A file that can't be opened or read prints `FF00000000` and nothing more."
pub fn print_unreadable<W: Write>(to: &mut W) -> io::Result<()>
    ensures { OnOk result (Appends (W.contents to.old) (W.contents to.new) (reply_line 0xFF 0 0)) }
{
    print_reply(to, UNREADABLE)
}

// The first n bytes, where there are as many; whether there are.
// Stays: a bool in the result, since callers are told whether there are as many, and an error is a failed write.
pub fn print_first<W: Write>(to: &mut W, bytes: &[u8], n: usize) -> io::Result<bool>
    ensures value { IfOk result (λ first. IsTrue first ↔ (n ≤ length bytes.now)) }
    ensures first { OnOk result (n ≤ length bytes.now → Appends (W.contents to.old) (W.contents to.new) (take n bytes.now)) }
    ensures fewer { length bytes.now < n → (result ≡ Ok false) × Keeps (W.contents to.old) (W.contents to.new) }
{
    let Some(first) = bytes.get(..n) else {
        return Ok(false);
    };
    to.write_all(first)?;
    Ok(true)
}

// The reply, and the output lines that it speaks of.
pub fn print_answer<W: Write>(to: &mut W, reply: Reply, out: &[u8]) -> io::Result<()>
    ensures { OnOk result (reply.length ≤ length out.now → Appends (W.contents to.old) (W.contents to.new)
        (reply_line reply.number reply.place reply.length ++ take reply.length out.now)) }
{
    print_reply(to, reply)?;
    print_first(to, out, reply.length as usize)?;
    Ok(())
}
