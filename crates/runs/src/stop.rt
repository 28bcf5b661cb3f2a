// What a run answers: a value's extent, or a stop that says which kind and which entry.
use values::extents::Extent;

#[derive(Clone, Copy, Debug, PartialEq, Eq)]
pub enum Stop {
    Source(u8),
    Size(u8),
}

pub type Run = Result<Extent, Stop>;

// What a test answers.
pub type Tested = Result<bool, Stop>;
