// Upper-case hexadecimal digits, and the bytes that pairs of them are.
ghost use Rattle.std.specs.Prelude.{◌≡◌, get_or};
ghost use Rattle.lines.specs.Hex.{is_hex, hex_value, hex_digit};
ghost use Rattle.lines.specs.Engine.Starts.{pair_at};
ghost use Rattle.lines.specs.Engine.Digits.{digit_row};

// Stays: one number, a digit's value and 16 more, 0 for any other byte: every byte of every file is looked up here.
const DIGITS: [u8; 256] = *b"\
    \x00\x00\x00\x00\x00\x00\x00\x00\x00\x00\x00\x00\x00\x00\x00\x00\
    \x00\x00\x00\x00\x00\x00\x00\x00\x00\x00\x00\x00\x00\x00\x00\x00\
    \x00\x00\x00\x00\x00\x00\x00\x00\x00\x00\x00\x00\x00\x00\x00\x00\
    \x10\x11\x12\x13\x14\x15\x16\x17\x18\x19\x00\x00\x00\x00\x00\x00\
    \x00\x1A\x1B\x1C\x1D\x1E\x1F\x00\x00\x00\x00\x00\x00\x00\x00\x00\
    \x00\x00\x00\x00\x00\x00\x00\x00\x00\x00\x00\x00\x00\x00\x00\x00\
    \x00\x00\x00\x00\x00\x00\x00\x00\x00\x00\x00\x00\x00\x00\x00\x00\
    \x00\x00\x00\x00\x00\x00\x00\x00\x00\x00\x00\x00\x00\x00\x00\x00\
    \x00\x00\x00\x00\x00\x00\x00\x00\x00\x00\x00\x00\x00\x00\x00\x00\
    \x00\x00\x00\x00\x00\x00\x00\x00\x00\x00\x00\x00\x00\x00\x00\x00\
    \x00\x00\x00\x00\x00\x00\x00\x00\x00\x00\x00\x00\x00\x00\x00\x00\
    \x00\x00\x00\x00\x00\x00\x00\x00\x00\x00\x00\x00\x00\x00\x00\x00\
    \x00\x00\x00\x00\x00\x00\x00\x00\x00\x00\x00\x00\x00\x00\x00\x00\
    \x00\x00\x00\x00\x00\x00\x00\x00\x00\x00\x00\x00\x00\x00\x00\x00\
    \x00\x00\x00\x00\x00\x00\x00\x00\x00\x00\x00\x00\x00\x00\x00\x00\
    \x00\x00\x00\x00\x00\x00\x00\x00\x00\x00\x00\x00\x00\x00\x00\x00";

fn digit_row(b: u8) -> u8
    ensures { result ≡ digit_row b }
{
    DIGITS[b as usize]
}

#[tactic(auto, using(std::proofs::lemmas::Bool::Decides::nat_tests), unfolding(crate::specs::Engine::Digits::digit_row))]
pub fn is_hex(b: u8) -> bool
    ensures { result ≡ is_hex b }
{
    16 <= digit_row(b)
}

#[tactic(auto, using(crate::proofs::Digits::digits), unfolding(crate::specs::Engine::Digits::digit_row))]
fn hex_value(b: u8) -> u8
    ensures { result ≡ hex_value b }
{
    digit_row(b) % 16
}

// The byte of the pair at `p`.
#[tactic(auto, using(crate::proofs::Digits::pair_reads))]
pub fn pair_at(s: &[u8], p: usize) -> u8
    ensures { result ≡ pair_at s.now p }
{
    // Stays: a match on what `get` gives takes half as long again where tags are checked.
    if s.len() <= p {
        return 0;
    }
    if s.len() - p < 2 {
        return 16 * hex_value(s[p]);
    }
    16 * hex_value(s[p]) + hex_value(s[p + 1])
}

// The digit at `p` as it is; where there is none, the digit 0.
#[tactic(auto, using(crate::proofs::Digits::digits), unfolding(crate::specs::Hex::hex_digit))]
pub fn digit_at(s: &[u8], p: usize) -> u8
    ensures { result ≡ hex_digit (hex_value (get_or s.now p 0)) }
{
    match s.get(p) {
        Some(b) if is_hex(*b) => *b,
        _ => b'0',
    }
}

// The digit of a value below 16.
#[tactic(auto, using(std::proofs::lemmas::Bool::Decides::nat_tests), unfolding(crate::specs::Hex::hex_digit))]
pub fn hex_digit(n: u8) -> u8
    ensures { result ≡ hex_digit n }
{
    match n {
        0..=9 => b'0' + n,
        10..=15 => b'A' - 10 + n,
        _ => 0,
    }
}
