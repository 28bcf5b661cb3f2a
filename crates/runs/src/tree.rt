// The tree check: levels, counts and slots from the root down, and the place behind each entry's subtree.
ghost use Rattle.std.specs.Prelude.{◌≡◌, true, false};
ghost use Rattle.lines.specs.Entries.{class_of, subs_of};
ghost use Rattle.runs.specs.Engine.Ends.{stands, end_of, end_below, end_at};
ghost use Rattle.runs.specs.Engine.Rooms.{room_of};
ghost use Rattle.runs.specs.Engine.Checking.{Sized, CheckedFrom, CheckedWhole};

pub use crate::room::Room;
use lines::entry::EntryLines;
use lines::table::{Class, class_of, subs_of};

// "no entry is at level 13"
pub const LEVELS: u8 = 12;

// Whether the operation is a test where one is asked for, else a transformation.
// Stays: a bool, since the rules read a tree where a test is asked for or a transformation.
#[tactic(auto, unfolding(crate::specs::Engine::Ends::stands))]
fn is_asked(operation: u8, test: bool) -> bool
    ensures { result ≡ stands test (class_of operation) }
{
    match class_of(operation) {
        Some(Class::Transformation) => !test,
        Some(Class::Test) => test,
        None => false,
    }
}

// The subtree at an entry, where a test is asked for or a transformation: the place behind it, or the first faulty entry.
// Stays: entries and ends are two parameters, since one value of both, changed on the way, would have to promise that its entries are the same.
#[cycle(checking)]
fn check_at(
    entries: &EntryLines,
    ends: &mut [u8],
    test: bool,
    entry: u8,
    levels: u8,
    room: Room,
) -> Result<u8, u8>
    requires { Sized entries.now ends.old }
    ensures { CheckedFrom entries.now ends.old ends.new entry (end_at entries.now levels (room_of room) test entry) result }
{
    if levels == 0 {
        return Err(entry);
    }
    if entries.len() <= entry as usize {
        return Err(entry);
    }
    let line = entries.entry(entry as usize);
    let operation = line.operation();
    let byte = line.slot();
    if !room.may_stand(operation, byte) {
        return Err(entry);
    }
    if !is_asked(operation, test) {
        return Err(entry);
    }
    let inner = room.below(operation, byte);
    let next = check_below(entries, ends, operation, entry + 1, levels - 1, inner)?;
    ends[entry as usize] = next;
    Ok(next)
}

// The sub-entries of an operation, from `entry` on.
#[cycle(checking)]
fn check_below(
    entries: &EntryLines,
    ends: &mut [u8],
    operation: u8,
    entry: u8,
    levels: u8,
    room: Room,
) -> Result<u8, u8>
    requires { Sized entries.now ends.old }
    ensures { let ends_of = end_at entries.now levels (room_of room) in
        CheckedFrom entries.now ends.old ends.new entry (end_below (ends_of false) (ends_of true) (subs_of operation) entry) result }
{
    match subs_of(operation) {
        0 => Ok(entry),
        1 => check_at(entries, ends, false, entry, levels, room),
        2 => check_two(entries, ends, entry, levels, room),
        _ => check_choice(entries, ends, entry, levels, room),
    }
}

// X1 X2
#[cycle(checking)]
fn check_two(
    entries: &EntryLines,
    ends: &mut [u8],
    entry: u8,
    levels: u8,
    room: Room,
) -> Result<u8, u8>
    requires { Sized entries.now ends.old }
    ensures { CheckedFrom entries.now ends.old ends.new entry (end_of (end_at entries.now levels (room_of room) false) 2 entry) result }
{
    let second = check_at(entries, ends, false, entry, levels, room)?;
    check_at(entries, ends, false, second, levels, room)
}

// P X1 X2
#[cycle(checking)]
fn check_choice(
    entries: &EntryLines,
    ends: &mut [u8],
    entry: u8,
    levels: u8,
    room: Room,
) -> Result<u8, u8>
    requires { Sized entries.now ends.old }
    ensures { let ends_of = end_at entries.now levels (room_of room) in
        CheckedFrom entries.now ends.old ends.new entry (end_below (ends_of false) (ends_of true) 3 entry) result }
{
    let first = check_at(entries, ends, true, entry, levels, room)?;
    check_two(entries, ends, first, levels, room)
}

// The whole program: nothing is left over. The place behind it, or the first faulty entry.
pub fn check_program(entries: &EntryLines, ends: &mut [u8]) -> Result<u8, u8>
    requires { Sized entries.now ends.old }
    ensures { CheckedWhole entries.now ends.new result }
{
    let next = check_at(entries, ends, false, 0, LEVELS, Room::whole())?;
    if (next as usize) < entries.len() {
        return Err(next);
    }
    Ok(next)
}
