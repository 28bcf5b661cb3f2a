// The value layer: values and standings as extents of words in a slice, and what needs nothing but them.
#![tactic(auto)]

pub mod extents;
pub mod nodes;
pub mod standings;
