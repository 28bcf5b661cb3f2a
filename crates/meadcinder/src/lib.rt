// Every call for hosts written in C, and nothing else: what the archive exports.
#![tactic(auto)]

pub mod c_forms;
