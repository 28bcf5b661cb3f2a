// The calls: showing a view, putting it back and sweeping a master, on the bytes of files, with the twelve replies.
#![tactic(auto)]

pub mod beside;
pub mod files;
pub mod put_back;
pub mod reach;
pub mod refusal;
pub mod reply;
pub mod room;
pub mod run_program;
pub mod show;
pub mod sweep;
pub mod view_in;
pub mod view_out;
pub mod write_master;
