// Values: what their words say, their top nodes, their first item, their depths.
ghost use Rattle.std.specs.Prelude.{◌≡◌, ℕ, map, ◌+◌, ◌/◌, ◌<◌, ◌≤◌, length};
ghost use Rattle.lines.specs.Writing.{put_at};
ghost use Rattle.values.specs.Values.{no_top, under, shallow};
ghost use Rattle.values.specs.Engine.Words.{LiesIn, Made, part, node_of, origin_named, value_of, lowered_word, raised_word, FirstItem};

use crate::extents::{Extent, copy};

// A word's depth is its high half.
// Stays: a work slice is numbers of 32 bits.
pub const LEVEL: u32 = 0x10000;

// The low half of a word: from this on an entry of the program.
pub const PROGRAM: u32 = 0x8000;

// Where the node of a word comes from: the master's line of this number, or the program's entry at this place.
// Stays: no equality, as it is matched and never compared.
#[derive(Clone, Copy)]
pub enum WordOrigin {
    Master(u16),
    Program(u16),
}

#[tactic(auto, unfolding(crate::specs::Engine::Words::node_of, crate::specs::Engine::Words::origin_of))]
pub fn origin_of(word: u32) -> WordOrigin
    ensures { (made : Made) → (node_of made word).origin ≡ origin_named made result }
{
    let origin = word % LEVEL;
    match origin.checked_sub(PROGRAM) {
        Some(entry) => WordOrigin::Program(entry as u16),
        None => WordOrigin::Master(origin as u16),
    }
}

// The depth of its node.
pub fn depth_of(word: u32) -> u32
    ensures { result ≡ word / 0x10000 }
{
    word / LEVEL
}

// How many nodes stand before the first top node.
fn nodes_under(words: &[u32]) -> usize
    ensures long { (made : Made) → result ≡ length (under (value_of made words.now)) }
    ensures within { result ≤ length words.now }
{
    words
        .iter()
        .position(|word| *word < LEVEL)
        .unwrap_or(words.len())
}

// Whether no node is a top node.
pub fn no_top(words: &[u32]) -> bool
    ensures { (made : Made) → result ≡ no_top (value_of made words.now) }
{
    words.iter().all(|word| *word >= LEVEL)
}

// How many nodes the first item has: up to the next top node.
pub fn first_item(words: &[u32]) -> usize
    requires { 0 < length words.now }
    ensures { FirstItem words.now result }
{
    1 + nodes_under(&words[1..])
}

// Whether each depth is within the bound.
pub fn is_shallow(words: &[u32]) -> bool
    ensures { (made : Made) → result ≡ shallow (value_of made words.now) }
{
    words.iter().all(|word| depth_of(*word) <= 9)
}

// A node one level up: a top node stays.
#[tactic(auto, using(std::proofs::lemmas::Bool::Decides::nat_tests), unfolding(crate::specs::Engine::Words::lowered_word))]
fn lowered_word(word: u32) -> u32
    ensures { result ≡ lowered_word word }
{
    word.checked_sub(LEVEL).unwrap_or(word)
}

// A node one level down, where there is room.
#[tactic(auto, using(std::proofs::lemmas::Bool::Decides::nat_tests), unfolding(crate::specs::Engine::Words::raised_word))]
fn raised_word(word: u32) -> u32
    ensures { result ≡ raised_word word }
{
    word.checked_add(LEVEL).unwrap_or(word)
}

// The extent at another place, each node at the level that `level` gives it.
fn relevel<F: Fn(u32) -> u32>(work: &mut [u32], from: Extent, to: usize, level: F)
    requires bounds { LiesIn from work.old × (to + from.len ≤ length work.old) }
    requires callable { F.IsAlwaysCallable level }
    ensures { (f : ℕ → ℕ) → ((x y : ℕ) → F.post level x y → y ≡ f x)
        → work.new ≡ put_at work.old to (map f (part work.old from.start from.len)) }
{
    copy(work, from, to);
    let words = &mut work[to..to + from.len];
    for word in words.iter_mut() {
        *word = level(*word);
    }
}

// The extent at another place, each node one level up: contents as a value.
pub fn lower(work: &mut [u32], from: Extent, to: usize)
    requires { LiesIn from work.old × (to + from.len ≤ length work.old) }
    ensures { work.new ≡ put_at work.old to (map lowered_word (part work.old from.start from.len)) }
{
    relevel(work, from, to, lowered_word);
}

// The extent at another place, each node one level down: a value as contents.
pub fn raise(work: &mut [u32], from: Extent, to: usize)
    requires { LiesIn from work.old × (to + from.len ≤ length work.old) }
    ensures { work.new ≡ put_at work.old to (map raised_word (part work.old from.start from.len)) }
{
    relevel(work, from, to, raised_word);
}
