// The program and the master: replies 2 to 5.
// Stays: each file, the view too, has its own scan and check, since rules and refusals differ.
ghost use Rattle.std.specs.Prelude.{◌≡◌, ◌≤◌, length};
ghost use Rattle.calls.specs.Judging.{master_rule};
ghost use Rattle.calls.specs.Engine.Parts.{ProgramJudged, MasterJudged};

use crate::refusal::Refusal;
use lines::entry::EntryLines;
use lines::node::NodeLines;
use lines::scan::{File, scan_lines};
use lines::verdict::earlier_of;
use runs::tree::check_program;

// How many entries the program has. Leaves in `starts` where each begins, and in `ends` the place behind its subtree.
// Stays: a count, since no contract speaks of lent places from which the answer borrows.
pub fn judge_program(program: &[u8], starts: &mut [u16], ends: &mut [u8]) -> Result<usize, Refusal>
    requires { (128 ≤ length starts.old) × (96 ≤ length ends.old) }
    ensures { ProgramJudged program.now starts.new ends.new result }
{
    let n = scan_lines(File::Program, program, starts).map_err(Refusal::ProgramLine)?;
    let entries = EntryLines::new(program, &starts[0..n]);
    // Stays: matched, since behind `map_err` the bound of the entry is not known.
    match check_program(&entries, ends) {
        Ok(_) => Ok(n),
        Err(entry) => Err(Refusal::ProgramTree(entry)),
    }
}

// A mark is a fault only where the master is put back to.
// Stays: a bool, since the rule of specs/Judging is `master_rule putting`.
fn master_fault(nodes: &NodeLines, putting: bool) -> Option<usize>
    ensures { result ≡ master_rule putting nodes.now }
{
    let misplaced = nodes.first_misplaced();
    if !putting {
        return misplaced;
    }
    earlier_of(misplaced, nodes.first_marked())
}

// How many lines the master has. Leaves in `starts` where each begins.
pub fn judge_master(master: &[u8], starts: &mut [u16], putting: bool) -> Result<usize, Refusal>
    requires { 128 ≤ length starts.old }
    ensures { MasterJudged putting master.now starts.new result }
{
    let n = scan_lines(File::Master, master, starts).map_err(Refusal::MasterLine)?;
    let nodes = NodeLines::new(master, &starts[0..n]);
    if let Some(line) = master_fault(&nodes, putting) {
        return Err(Refusal::MasterRule(line));
    }
    Ok(n)
}
