// Sweeping a master: what was deleted goes, the rest is numbered anew.
#![tactic(auto)]

pub mod removal;
pub mod write_lines;
pub mod write_numbers;
