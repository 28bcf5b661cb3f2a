// Extents of words, moved as they are: the slice's own methods, with contracts that all say `put_at`.
ghost use Rattle.std.specs.Prelude.{◌≡◌, ◌+◌, ◌-◌, ◌^◌, ◌<◌, ◌≤◌, length, replicate};
ghost use Rattle.lines.specs.Writing.{put_at};
ghost use Rattle.values.specs.Engine.Words.{LiesIn, part};

// "A value has at most 128 nodes"
pub const MOST_NODES: usize = 128;

// So many words are room for any value.
pub const VALUE_ROOM: usize = MOST_NODES;

// Where a value's words lie.
// Stays: an extent at a new place is written out: a literal's fields compute in the proofs, a method's result is only equal to them.
#[derive(Clone, Copy)]
pub struct Extent {
    pub start: usize,
    pub len: usize,
}

impl Extent {
    pub fn words<'a>(self, work: &'a [u32]) -> &'a [u32]
        requires { LiesIn self work.now }
        ensures { result.now ≡ part work.now self.start self.len }
    {
        &work[self.start..self.start + self.len]
    }

    // What is behind its first `n` words.
    pub fn skip(self, n: usize) -> Extent
        requires { (n ≤ self.len) × (self.start + n < 2 ^ 64) }
        ensures { (result.start ≡ self.start + n) × (result.len ≡ self.len - n) }
    {
        Extent {
            start: self.start + n,
            len: self.len - n,
        }
    }
}

// To another place, which may lie over the extent: no word is written before it is read.
// Stays: word by word, here and in `bring`: for the slice's own methods the archive would need memmove of its host.
pub fn copy(work: &mut [u32], from: Extent, to: usize)
    requires { LiesIn from work.old × (to + from.len ≤ length work.old) }
    ensures { work.new ≡ put_at work.old to (part work.old from.start from.len) }
{
    if to <= from.start {
        copy_from_first(work, from, to);
    } else {
        copy_from_last(work, from, to);
    }
}

fn copy_from_first(work: &mut [u32], from: Extent, to: usize)
    requires { LiesIn from work.old × (to ≤ from.start) }
    ensures { work.new ≡ put_at work.old to (part work.old from.start from.len) }
{
    for i in 0..from.len {
        work[to + i] = work[from.start + i];
    }
}

fn copy_from_last(work: &mut [u32], from: Extent, to: usize)
    requires { (from.start ≤ to) × (to + from.len ≤ length work.old) }
    ensures { work.new ≡ put_at work.old to (part work.old from.start from.len) }
{
    for i in (0..from.len).rev() {
        work[to + i] = work[from.start + i];
    }
}

// From one slice into another.
pub fn bring(work: &mut [u32], to: usize, other: &[u32], from: Extent)
    requires { (to + from.len ≤ length work.old) × LiesIn from other.now }
    ensures { work.new ≡ put_at work.old to (part other.now from.start from.len) }
{
    for i in 0..from.len {
        work[to + i] = other[from.start + i];
    }
}

#[tactic(auto, using(crate::proofs::Words::mid_put))]
pub fn fill(work: &mut [u32], to: Extent, word: u32)
    requires { LiesIn to work.old }
    ensures { work.new ≡ put_at work.old to.start (replicate to.len word) }
{
    work[to.start..to.start + to.len].fill(word);
}
