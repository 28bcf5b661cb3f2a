// What a run reads: the program's entries, the place behind each one's subtree, and the master's lines.
// Stays: a node is its word, as it lies in the work slice.
ghost use Rattle.std.specs.Prelude.{◌≡◌, ◌<◌, length, get_or};
ghost use Rattle.lines.specs.Engine.Texts.{text_bytes};
ghost use Rattle.values.specs.Values.{element_of, bytes_of};
ghost use Rattle.values.specs.Engine.Words.{node_of};
ghost use Rattle.runs.specs.Reading.{no_entry};
ghost use Rattle.runs.specs.Engine.Ends.{branch_at};
ghost use Rattle.runs.specs.Engine.Runs.{made_by, lookup_of};

use lines::entry::{EntryLine, EntryLines};
use lines::form::is_element;
use lines::node::NodeLines;
use lines::text::Text;
use values::nodes::{WordOrigin, origin_of};

#[derive(Drop)]
pub struct Inputs<'a> {
    pub entries: EntryLines<'a>,
    pub ends: &'a [u8],
    pub nodes: NodeLines<'a>,
}

impl<'a> Inputs<'a> {
    // Whether the node of this word is an element: by the master's line of its number, or the program's entry that makes it.
    #[tactic(auto, using(std::proofs::lemmas::List::get_or_past), unfolding(lines::specs::Nodes::is_element, values::specs::Values::element_of, crate::specs::Engine::Runs::lookup_of, crate::specs::Engine::Runs::made_by))]
    pub fn is_element(&self, word: u32) -> bool
        ensures { let made = made_by self.now.entries in
            result ≡ element_of (lookup_of self.now.nodes) (node_of made word).origin }
    {
        match origin_of(word) {
            WordOrigin::Master(n) => {
                let n = n as usize;
                n < self.nodes.len() && is_element(self.nodes.line(n).kind())
            }
            WordOrigin::Program(e) => {
                let e = e as usize;
                // Stays: 04 is the table's byte, the one operation that makes an element.
                e < self.entries.len() && self.entries.entry(e).operation() == 0x04
            }
        }
    }

    // Its text, or its tag; empty where there is no such line or entry.
    #[tactic(auto, using(std::proofs::lemmas::List::get_or_past), unfolding(lines::specs::Entries::text_of, values::specs::Values::bytes_of, crate::specs::Engine::Runs::lookup_of, crate::specs::Engine::Runs::made_by))]
    pub fn text(&self, word: u32) -> Text<'a>
        ensures { let made = made_by self.now.entries in
            text_bytes result ≡ bytes_of (lookup_of self.now.nodes) (node_of made word).origin }
    {
        match origin_of(word) {
            WordOrigin::Master(n) if (n as usize) < self.nodes.len() => {
                self.nodes.line(n as usize).text()
            }
            WordOrigin::Program(e) if (e as usize) < self.entries.len() => {
                self.entries.entry(e as usize).text()
            }
            _ => Text::empty(),
        }
    }

    // The entry's line.
    pub fn entry(&self, entry: u8) -> EntryLine<'a>
        requires { entry < length self.now.entries }
        ensures { result ≡ get_or self.now.entries entry no_entry }
    {
        self.entries.entry(entry as usize)
    }

    // Where the entry behind this one's subtree stands.
    pub fn after(&self, entry: u8) -> u8
        requires { entry < length self.now.ends.now }
        ensures { result ≡ get_or self.now.ends.now entry 0 }
    {
        self.ends[entry as usize]
    }

    // Where the branch stands that the test at `entry` leads to.
    // Stays: a bool, since a test says yes or no.
    pub fn chosen(&self, entry: u8, yes: bool) -> u8
        requires { (entry < length self.now.ends.now) × (get_or self.now.ends.now entry 0 < length self.now.ends.now) }
        ensures { result ≡ branch_at self.now.ends.now entry yes }
    {
        let first = self.after(entry);
        if yes {
            return first;
        }
        self.after(first)
    }
}
