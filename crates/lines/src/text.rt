// A text in a file, known by the place of its length byte: texts of masters, views and programs are read and compared alike.
ghost use Rattle.std.specs.Prelude.{◌≡◌, ◌<◌, ◌≤◌, ◌*◌, [], eqb, length, get_or, take};
ghost use Rattle.lines.specs.Hex.{encode};
ghost use Rattle.lines.specs.Texts.{same_text, trimmed, agree};
ghost use Rattle.lines.specs.Engine.Starts.{text_at};
ghost use Rattle.lines.specs.Engine.Sums.{text_sum};
ghost use Rattle.lines.specs.Engine.Texts.{text_bytes};

use crate::hex::{digit_at, pair_at};

// The byte that test 11 overlooks behind a text's last other one.
const SPACE: u8 = b' ';

// A clause sees a text's bytes by `text_bytes`.
// Stays: no model, so that a text is copied like any place in a file.
#[derive(Clone, Copy, Drop)]
pub struct Text<'a> {
    pub bytes: &'a [u8],
    pub at: u32,
}

impl<'a> Text<'a> {
    // The text whose length byte is the pair at `at`.
    pub fn at(bytes: &'a [u8], at: u32) -> Text<'a>
        ensures { text_bytes result ≡ text_at bytes.now at }
    {
        Text { bytes, at }
    }

    #[tactic(auto, unfolding(crate::specs::Engine::Starts::text_at, crate::specs::Engine::Starts::bytes_from, crate::specs::Engine::Starts::pair_at, crate::specs::Hex::hex_value))]
    pub fn empty() -> Text<'a>
        ensures { text_bytes result ≡ [] }
    {
        Text { bytes: b"", at: 0 }
    }

    #[tactic(auto, using(crate::proofs::Theorems::Reading::length_text))]
    pub fn len(&self) -> u8
        ensures { result ≡ length (text_bytes self.now) }
    {
        pair_at(self.bytes, self.at as usize)
    }

    #[tactic(auto, using(crate::proofs::Theorems::Reading::byte_of_text))]
    pub fn byte(&self, j: u8) -> u8
        requires { j < length (text_bytes self.now) }
        ensures { result ≡ get_or (text_bytes self.now) j 0 }
    {
        pair_at(self.bytes, self.at as usize + 2 + 2 * j as usize)
    }

    // Whether both have the same byte at `j`.
    pub fn has_same_byte(&self, other: &Text, j: u8) -> bool
        requires { (j < length (text_bytes self.now)) × (j < length (text_bytes other.now)) }
        ensures { result ≡ eqb (get_or (text_bytes self.now) j 0) (get_or (text_bytes other.now) j 0) }
    {
        self.byte(j) == other.byte(j)
    }

    // The digit `i` of the text's pairs, as it stands in the file.
    #[tactic(auto, using(crate::proofs::Theorems::Reading::digit_of_text))]
    pub(crate) fn digit(&self, i: u16) -> u8
        requires { i < 2 * length (text_bytes self.now) }
        ensures { result ≡ get_or (encode (text_bytes self.now)) i 0 }
    {
        digit_at(self.bytes, self.at as usize + 2 + i as usize)
    }

    // A number that two texts share if they are the same: others seldom do, even with the same bytes in another order, by the factor.
    // Stays: a remainder in 64 bits, as the clauses say it: what wraps in 32 would have to be shown the same.
    pub fn sum(&self) -> u32
        ensures { result ≡ text_sum (text_bytes self.now) }
    {
        let mut sum: u64 = 0;
        for j in 0..self.len() {
            sum = (0x9E3779B1 * sum + self.byte(j) as u64) % 0x100000000;
        }
        sum as u32
    }

    // How many bytes are left without the spaces behind the last other one.
    fn trimmed_len(&self) -> u8
        ensures { result ≡ length (trimmed (text_bytes self.now)) }
    {
        for j in (0..self.len()).rev() {
            if self.byte(j) != SPACE {
                return j + 1;
            }
        }
        0
    }

    // Whether the first m bytes of this one are the first n of the other: the numbers first, then from the last byte to the first, since
    // names often begin alike and differ at the tail.
    fn has_same_front(&self, m: u8, other: &Text, n: u8) -> bool
        requires { (m ≤ length (text_bytes self.now)) × (n ≤ length (text_bytes other.now)) }
        ensures { result ≡ same_text (take m (text_bytes self.now)) (take n (text_bytes other.now)) }
    {
        if m != n {
            return false;
        }
        // Stays: a loop, as std has no lemma for a range turned round under `all`.
        for j in (0..n).rev() {
            if !self.has_same_byte(other, j) {
                return false;
            }
        }
        true
    }

    // Byte for byte.
    pub fn is_same(&self, other: &Text) -> bool
        ensures { result ≡ same_text (text_bytes self.now) (text_bytes other.now) }
    {
        self.has_same_front(self.len(), other, other.len())
    }

    // What test 11 asks of the source text, this one, and the other.
    pub fn agrees_with(&self, other: &Text) -> bool
        ensures { result ≡ agree (text_bytes self.now) (text_bytes other.now) }
    {
        self.has_same_front(self.trimmed_len(), other, other.trimmed_len())
    }
}
