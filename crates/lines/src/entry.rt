// The lines of a program, each read off the file where it stands; nothing is asked of file or start.
ghost use Rattle.std.specs.Prelude.{◌≡◌, ◌+◌, ◌<◌, length, get_or};
ghost use Rattle.lines.specs.Entries.{Entry, slot_of, text_of};
ghost use Rattle.lines.specs.Engine.Starts.{pair_at, entry_at, entries_of};
ghost use Rattle.lines.specs.Engine.Texts.{text_bytes};

use crate::hex::pair_at;
use crate::table::{Shape, operand_shape};
use crate::text::Text;
use std::marker::Model;

// The byte behind the operation, whatever that is.
pub fn slot_at(s: &[u8], start: u16) -> u8
    ensures { result ≡ pair_at s.now (start + 2) }
{
    pair_at(s, start as usize + 2)
}

// Where a text or tag stands behind the operation, whatever that is.
pub fn entry_text(start: u16) -> u32
    ensures { result ≡ start + 2 }
{
    start as u32 + 2
}

// The line of one entry, which begins at `start`.
#[derive(Drop)]
pub struct EntryLine<'a> {
    bytes: &'a [u8],
    start: u16,
}

impl<'a> Model for EntryLine<'a> {
    ghost use Rattle.lines.specs.Entries.{Entry};
    ghost use Rattle.lines.specs.Engine.Starts.{entry_at};

    ghost Value = { Entry };

    ghost view = { λ e. entry_at e.bytes.now e.start };
}

impl<'a> EntryLine<'a> {
    pub fn at(bytes: &'a [u8], start: u16) -> EntryLine<'a>
        ensures { result ≡ entry_at bytes.now start }
    {
        EntryLine { bytes, start }
    }

    // Stays: a byte, as the entry may have any there.
    #[tactic(auto, unfolding(crate::specs::Engine::Starts::entry_at))]
    pub fn operation(&self) -> u8
        ensures { result ≡ self.now.operation }
    {
        pair_at(self.bytes, self.start as usize)
    }

    // The first byte of the operand, 0 where there is none: the slot, if that is the operation's shape.
    #[tactic(auto, unfolding(crate::specs::Entries::slot_of, crate::specs::Engine::Starts::entry_at, crate::specs::Engine::Starts::operand_at))]
    pub fn slot(&self) -> u8
        ensures { result ≡ slot_of self.now }
    {
        match operand_shape(self.operation()) {
            None | Some(Shape::Nothing) => 0,
            Some(_) => slot_at(self.bytes, self.start),
        }
    }

    // The text or tag of the operation, empty if it has neither.
    #[tactic(auto, unfolding(crate::specs::Entries::text_of, crate::specs::Engine::Starts::entry_at, crate::specs::Engine::Starts::operand_at))]
    pub fn text(&self) -> Text<'a>
        ensures { text_bytes result ≡ text_of self.now }
    {
        match operand_shape(self.operation()) {
            Some(Shape::Text | Shape::Tag) => Text::at(self.bytes, entry_text(self.start)),
            _ => Text::empty(),
        }
    }
}

// The entries whose lines begin at `starts`.
// Stays: apart from `NodeLines`, as a clause sees other values: the two read a file differently by its starts.
#[derive(Drop)]
pub struct EntryLines<'a> {
    bytes: &'a [u8],
    starts: &'a [u16],
}

impl<'a> Model for EntryLines<'a> {
    ghost use Rattle.std.specs.Prelude.{List};
    ghost use Rattle.lines.specs.Entries.{Entry};
    ghost use Rattle.lines.specs.Engine.Starts.{entries_of};

    ghost Value = { List Entry };

    ghost view = { λ e. entries_of e.bytes.now e.starts.now };
}

impl<'a> EntryLines<'a> {
    pub fn new(bytes: &'a [u8], starts: &'a [u16]) -> EntryLines<'a>
        ensures { result ≡ entries_of bytes.now starts.now }
    {
        EntryLines { bytes, starts }
    }

    pub fn len(&self) -> usize
        ensures { result ≡ length self.now }
    {
        self.starts.len()
    }

    pub fn entry(&self, k: usize) -> EntryLine<'a>
        requires { k < length self.now }
        ensures { (d : Entry) → result ≡ get_or self.now k d }
    {
        EntryLine {
            bytes: self.bytes,
            start: self.starts[k],
        }
    }
}
