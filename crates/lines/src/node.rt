// The lines of a master or a view, each read off the file where it stands; nothing is asked of file or start.
ghost use Rattle.std.specs.Prelude.{◌≡◌, ◌<◌, ◌≤◌, List, ℕ, length, get_or};
ghost use Rattle.lines.specs.Nodes.{Line, line_at, is_element, is_marked};
ghost use Rattle.lines.specs.Masters.{placed, depth_after, master_bounds, unmarked};
ghost use Rattle.lines.specs.Views.{same_head, program_marked, program_mark};
ghost use Rattle.lines.specs.Engine.Starts.{node_at, lines_of};
ghost use Rattle.lines.specs.Engine.Texts.{text_bytes};
ghost use Rattle.lines.specs.Engine.Writes.{headed};

use crate::form::is_element;
use crate::hex::pair_at;
use crate::kind::Mark;
use crate::text::Text;
use crate::write::Head;
use std::marker::Model;

// A node that the program made has this number.
// Stays: FFFF is what such a line says.
pub const PROGRAM_NUMBER: u16 = 0xFFFF;

// The line of one node, which begins at `start`.
#[derive(Drop)]
pub struct NodeLine<'a> {
    bytes: &'a [u8],
    start: u16,
}

impl<'a> Model for NodeLine<'a> {
    ghost use Rattle.lines.specs.Nodes.{Line};
    ghost use Rattle.lines.specs.Engine.Starts.{node_at};

    ghost Value = { Line };

    ghost view = { λ n. node_at n.bytes.now n.start };
}

impl<'a> NodeLine<'a> {
    pub fn at(bytes: &'a [u8], start: u16) -> NodeLine<'a>
        ensures { result ≡ node_at bytes.now start }
    {
        NodeLine { bytes, start }
    }

    #[tactic(auto, unfolding(crate::specs::Engine::Starts::node_at))]
    pub fn depth(&self) -> u8
        ensures { result ≡ self.now.depth }
    {
        pair_at(self.bytes, self.start as usize)
    }

    // Stays: a byte, as the line may have any there; with `Kind::of` it is one of the kinds or none.
    #[tactic(auto, unfolding(crate::specs::Engine::Starts::node_at))]
    pub fn kind(&self) -> u8
        ensures { result ≡ self.now.kind }
    {
        pair_at(self.bytes, self.start as usize + 2)
    }

    // Stays: a byte, like the kind.
    #[tactic(auto, unfolding(crate::specs::Engine::Starts::node_at))]
    pub fn mark(&self) -> u8
        ensures { result ≡ self.now.mark }
    {
        pair_at(self.bytes, self.start as usize + 4)
    }

    #[tactic(auto, unfolding(crate::specs::Engine::Starts::node_at))]
    pub fn number(&self) -> u16
        ensures { result ≡ self.now.number }
    {
        let high = pair_at(self.bytes, self.start as usize + 6);
        let low = pair_at(self.bytes, self.start as usize + 8);
        u16::from_be_bytes([high, low])
    }

    #[tactic(auto, unfolding(crate::specs::Engine::Starts::node_at))]
    pub fn text(&self) -> Text<'a>
        ensures { text_bytes result ≡ self.now.text }
    {
        Text::at(self.bytes, self.start as u32 + 10)
    }

    pub fn is_element(&self) -> bool
        ensures { result ≡ is_element self.now.kind }
    {
        is_element(self.kind())
    }

    #[tactic(auto, unfolding(crate::specs::Nodes::is_marked))]
    fn is_marked(&self) -> bool
        ensures { result ≡ is_marked self.now }
    {
        self.mark() != Mark::Untouched as u8
    }

    // Whether the program made the node and the line carries a mark.
    #[tactic(auto, unfolding(crate::specs::Views::program_marked))]
    fn is_program_marked(&self) -> bool
        ensures { result ≡ program_marked self.now }
    {
        self.number() == PROGRAM_NUMBER && self.is_marked()
    }

    // Whether depth, kind and number are those of the head.
    #[tactic(auto, unfolding(crate::specs::Views::same_head))]
    pub fn has_head(&self, head: Head) -> bool
        ensures { (text : List ℕ) → result ≡ same_head self.now (headed head text) }
    {
        self.depth() == head.depth && self.kind() == head.kind && self.number() == head.number
    }

    // Whether line k of a master may stand at its depth, at most `most`, with its number.
    #[tactic(auto, unfolding(crate::specs::Masters::placed))]
    fn is_placed(&self, most: u8, k: usize) -> bool
        ensures { result ≡ placed most k self.now }
    {
        self.depth() <= most && self.depth() <= 7 && self.number() as usize == k
    }

    // The greatest depth that the line behind may have.
    #[tactic(auto, unfolding(crate::specs::Masters::depth_after))]
    fn depth_after(&self) -> u8
        requires { self.now.depth ≤ 7 }
        ensures { result ≡ depth_after self.now }
    {
        if self.is_element() {
            return self.depth() + 1;
        }
        self.depth()
    }
}

// The lines that begin at `starts`.
// Stays: apart from `EntryLines`, as a clause sees other values: the two read a file differently by its starts.
#[derive(Drop)]
pub struct NodeLines<'a> {
    bytes: &'a [u8],
    starts: &'a [u16],
}

impl<'a> Model for NodeLines<'a> {
    ghost use Rattle.std.specs.Prelude.{List};
    ghost use Rattle.lines.specs.Nodes.{Line};
    ghost use Rattle.lines.specs.Engine.Starts.{lines_of};

    ghost Value = { List Line };

    ghost view = { λ n. lines_of n.bytes.now n.starts.now };
}

impl<'a> NodeLines<'a> {
    pub fn new(bytes: &'a [u8], starts: &'a [u16]) -> NodeLines<'a>
        ensures { result ≡ lines_of bytes.now starts.now }
    {
        NodeLines { bytes, starts }
    }

    pub fn len(&self) -> usize
        ensures { result ≡ length self.now }
    {
        self.starts.len()
    }

    pub fn line(&self, k: usize) -> NodeLine<'a>
        requires { k < length self.now }
        ensures line { result ≡ line_at self.now k }
        ensures any { (d : Line) → result ≡ get_or self.now k d }
    {
        NodeLine {
            bytes: self.bytes,
            start: self.starts[k],
        }
    }

    // The first line of a master that breaks a bound or has not its place as number.
    pub fn first_misplaced(&self) -> Option<usize>
        ensures { result ≡ master_bounds self.now }
    {
        let mut most: u8 = 0;
        // Stays: a loop, as the greatest depth goes from line to line.
        for k in 0..self.len() {
            let line = self.line(k);
            if !line.is_placed(most, k) {
                return Some(k);
            }
            most = line.depth_after();
        }
        None
    }

    // The first line that carries a mark.
    pub fn first_marked(&self) -> Option<usize>
        ensures { result ≡ unmarked self.now }
    {
        self.starts
            .iter()
            .position(|start| NodeLine::at(self.bytes, *start).is_marked())
    }

    // The first line from the program that carries a mark.
    pub fn first_program_mark(&self) -> Option<usize>
        ensures { result ≡ program_mark self.now }
    {
        self.starts.iter().position(|start| NodeLine::at(self.bytes, *start).is_program_marked())
    }
}
