// The room that a call asks for, where things lie in its work slice, and the sizes of its own arrays.
use runs::put::PUT_ROOM;
use runs::tree::LEVELS;
use values::extents::VALUE_ROOM;

// The bytes of the output buffer.
pub const OUT_ROOM: usize = 9856;

// The bytes of a sweep's second output: five for each of 128 nodes.
pub const NUMBERS_ROOM: usize = 640;

// The words of a work slice that is lent.
pub const WORK_ROOM: usize = 16384;

// Where in the work slice, behind the source, what is shown lies, and then the view's standings.
pub const SHOWN: usize = 128;

// Where in the work slice the standings handed back lie.
pub const HANDED: usize = 256;

// The words that suffice for showing: each level's room, from SHOWN on.
pub const SHOW_ROOM: usize = SHOWN + LEVELS as usize * VALUE_ROOM;

// The words that suffice for putting back: each level's room, from HANDED on.
pub const PUT_BACK_ROOM: usize = HANDED + LEVELS as usize * PUT_ROOM;

// The most lines of a file: a scan asks for as many places.
pub const LINES: usize = 128;

// The most entries of a program.
pub const ENTRIES: usize = 96;
