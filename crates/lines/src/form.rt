// The form of one line's bytes. A line is cut from its file with its 0A.
// Stays: kind and mark are bytes, as a line may have any there; `kind_rule` answers for each.
ghost use Rattle.std.specs.Prelude.{◌≡◌};
ghost use Rattle.lines.specs.Hex.{decode};
ghost use Rattle.lines.specs.Texts.{same_text};
ghost use Rattle.lines.specs.Nodes.{is_element, is_tag, is_order, kind_rule, node_form};
ghost use Rattle.lines.specs.Entries.{text_form, operand_form, entry_form};

use crate::hex::pair_at;
use crate::kind::{Kind, Mark};
use crate::table::{Shape, operand_shape};

// `d` is a tag's pairs, with the line's 0A or without it.
#[tactic(auto, using(crate::proofs::Forms::pairs), unfolding(crate::specs::Nodes::is_tag))]
fn is_tag(d: &[u8]) -> bool
    ensures { result ≡ is_tag (decode d.now) }
{
    d.len() >= 2 && (0..d.len() / 2).all(|i| matches!(pair_at(d, 2 * i), 0x21..=0x7E))
}

#[tactic(auto, unfolding(crate::specs::Nodes::is_element))]
pub fn is_element(kind: u8) -> bool
    ensures { result ≡ is_element kind }
{
    kind == Kind::Element as u8
}

// `d` is a text's pairs, with the line's 0A or without it. Like every text it is compared by its length first, then from the last byte to the first.
fn is_word(d: &[u8], word: &[u8]) -> bool
    ensures { result ≡ same_text (decode d.now) word.now }
{
    if d.len() / 2 != word.len() {
        return false;
    }
    // Stays: a loop, as std has no lemma for a range turned round under `all`.
    for j in (0..word.len()).rev() {
        if pair_at(d, 2 * j) != word[j] {
            return false;
        }
    }
    true
}

// `d` is an order's pairs, with the line's 0A or without it.
#[tactic(auto, unfolding(crate::specs::Nodes::is_order))]
fn is_order(d: &[u8]) -> bool
    ensures { result ≡ is_order (decode d.now) }
{
    is_word(d, b"hi-lo") || is_word(d, b"lo-hi")
}

// What a kind asks of the mark and of the bytes, whose pairs are `d`.
#[tactic(auto, using(std::proofs::lemmas::Bool::Decides::nat_tests), unfolding(crate::specs::Nodes::kind_rule, crate::specs::Nodes::kind_of, crate::specs::Nodes::mark_of, crate::specs::Nodes::is_element))]
fn kind_rule(kind: u8, mark: u8, d: &[u8]) -> bool
    ensures { result ≡ kind_rule kind mark (decode d.now) }
{
    let Some(mark) = Mark::of(mark) else {
        return false;
    };
    match Kind::of(kind) {
        Some(Kind::Text) => true,
        Some(Kind::Element) => mark != Mark::Changed && is_tag(d),
        Some(Kind::Order) => is_order(d),
        None => false,
    }
}

// Stays: apart from `text_form`, as length and count stand at other places.
#[tactic(auto, using(crate::proofs::Forms::pairs), unfolding(crate::specs::Nodes::node_form))]
pub fn node_form(c: &[u8]) -> bool
    ensures { result ≡ node_form (decode c.now) }
{
    let n = c.len() / 2;
    if n < 6 {
        return false;
    }
    let len = pair_at(c, 10);
    if n != 6 + len as usize || 32 < len {
        return false;
    }
    kind_rule(pair_at(c, 2), pair_at(c, 4), &c[12..])
}

#[tactic(auto, using(crate::proofs::Forms::pairs), unfolding(crate::specs::Entries::text_form))]
fn text_form(d: &[u8]) -> bool
    ensures { result ≡ text_form (decode d.now) }
{
    let n = d.len() / 2;
    if n < 1 {
        return false;
    }
    let len = pair_at(d, 0);
    len <= 32 && n == 1 + len as usize
}

// What a shape asks of the operand, whose pairs are `d`.
#[tactic(auto, using(crate::proofs::Forms::pairs), unfolding(crate::specs::Entries::operand_form))]
fn operand_form(shape: Shape, d: &[u8]) -> bool
    ensures { result ≡ operand_form (Some shape) (decode d.now) }
{
    match shape {
        Shape::Nothing => d.len() / 2 == 0,
        Shape::Text => text_form(d),
        Shape::Tag => text_form(d) && is_tag(&d[2..]),
        Shape::Slot => d.len() / 2 == 1,
    }
}

#[tactic(auto, using(crate::proofs::Forms::pairs), unfolding(crate::specs::Entries::entry_form, crate::specs::Entries::operand_form))]
pub fn entry_form(c: &[u8]) -> bool
    ensures { result ≡ entry_form (decode c.now) }
{
    if c.len() < 2 {
        return false;
    }
    match operand_shape(pair_at(c, 0)) {
        Some(shape) => operand_form(shape, &c[2..]),
        None => false,
    }
}
