// What the programs share: files read as far as a buffer holds, reply lines and output lines printed, number lines counted.
#![tactic(auto)]

pub mod numbers;
pub mod print;
pub mod read;
