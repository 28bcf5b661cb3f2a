// The line layer: files of upper-case hexadecimal lines, their two kinds of line, the table of
// operations, and the checks, comparisons and writing that need nothing but lines.
#![tactic(auto)]

pub mod entry;
pub mod form;
pub mod hex;
pub mod kind;
pub mod node;
pub mod numbers;
pub mod scan;
pub mod table;
pub mod text;
pub mod verdict;
pub mod write;
