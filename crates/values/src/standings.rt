// Standings as words, and their merging.
ghost use Rattle.std.specs.Prelude.{◌≡◌, ◌⊎◌, ◌+◌, ◌≤◌, length};
ghost use Rattle.lines.specs.Writing.{put_at};
ghost use Rattle.values.specs.Engine.Words.{LiesIn, part, merged_word, merged_words};

use crate::extents::Extent;

// Stays: a work slice is numbers of 32 bits, and two standings are equal where their words are.
pub const UNTOUCHED: u32 = 0;

pub const LOCKED: u32 = 1;

pub const DELETED: u32 = 2;

pub const CLASH: u32 = 3;

// Changed to the text of view line j is this and j.
pub const CHANGED: u32 = 4;

#[tactic(auto, using(std::proofs::lemmas::Bool::Decides::nat_tests), unfolding(crate::specs::Engine::Words::merged_word))]
pub fn merge_word(a: u32, b: u32) -> u32
    ensures { result ≡ merged_word a b }
{
    if a == UNTOUCHED {
        b
    } else if b == UNTOUCHED || a == b {
        a
    } else {
        CLASH
    }
}

// Node by node, what both say of it.
fn merge_words(words: &mut [u32], others: &[u32])
    requires { length words.old ≡ length others.now }
    ensures { words.new ≡ merged_words words.old others.now }
{
    // Stays: an index for the others, as behind `iter_mut().zip(..)` a proof knows nothing of the elements.
    for (i, word) in words.iter_mut().enumerate() {
        *word = merge_word(*word, others[i]);
    }
}

// The extent merged into another, node by node.
pub fn merge(work: &mut [u32], from: Extent, to: usize)
    requires len_in_bounds { LiesIn from work.old × (to + from.len ≤ length work.old) }
    requires fact { (to + from.len ≤ from.start) ⊎ (from.start + from.len ≤ to) }
    ensures { work.new ≡ put_at work.old to (merged_words (part work.old to from.len) (part work.old from.start from.len)) }
{
    if from.start < to {
        let (front, back) = work.split_at_mut(to);
        merge_words(&mut back[..from.len], from.words(front));
    } else {
        let (front, back) = work.split_at_mut(from.start);
        merge_words(&mut front[to..to + from.len], &back[..from.len]);
    }
}

// The same from one slice into another.
// Stays: apart from `merge`, whose one slice is cut first.
pub fn merge_from(work: &mut [u32], to: usize, other: &[u32], from: Extent)
    requires { (to + from.len ≤ length work.old) × LiesIn from other.now }
    ensures { work.new ≡ put_at work.old to (merged_words (part work.old to from.len) (part other.now from.start from.len)) }
{
    merge_words(&mut work[to..to + from.len], from.words(other));
}
