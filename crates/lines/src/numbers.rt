// Whole numbers in texts, which test 14 compares.
ghost use Rattle.std.specs.Prelude.{◌≡◌, true, ◌<◌, drop};
ghost use Rattle.lines.specs.Numbers.{has_minus, are_digits, digits_value, signed as signed_of, whole_number};
ghost use Rattle.lines.specs.Engine.Texts.{text_bytes};

use crate::text::Text;

fn has_minus(text: &Text) -> bool
    ensures { result ≡ has_minus (text_bytes text.now) }
{
    text.len() != 0 && text.byte(0) == b'-'
}

// Whether the bytes from `from` on are one to nine digits.
fn are_digits(text: &Text, from: u8) -> bool
    ensures { result ≡ are_digits (drop from (text_bytes text.now)) }
{
    let n = text.len();
    (1..=9).contains(&n.saturating_sub(from))
        && (from..n).all(|j| (b'0'..=b'9').contains(&text.byte(j)))
}

// The value of the digits from `from` on.
fn digits_value(text: &Text, from: u8) -> u32
    requires { are_digits (drop from (text_bytes text.now)) ≡ true }
    ensures { result ≡ digits_value 0 (drop from (text_bytes text.now)) }
{
    let mut value: u32 = 0;
    for j in from..text.len() {
        value = 10 * value + (text.byte(j) - b'0') as u32;
    }
    value
}

// Stays: a bool, as `has_minus` answers it.
fn signed(minus: bool, size: u32) -> i32
    requires { size < 1000000000 }
    ensures { result ≡ signed_of minus size }
{
    if minus { -(size as i32) } else { size as i32 }
}

pub fn whole_number(text: &Text) -> Option<i32>
    ensures { result ≡ whole_number (text_bytes text.now) }
{
    let minus = has_minus(text);
    let from = minus as u8;
    if !are_digits(text, from) {
        return None;
    }
    Some(signed(minus, digits_value(text, from)))
}
