// The runs: the program tree and its bounds, showing, testing and putting back, over values in the work slice.
#![tactic(auto)]

pub mod at;
pub mod inputs;
pub mod put;
mod room;
pub mod show;
pub mod slots;
pub mod stop;
pub mod tree;
