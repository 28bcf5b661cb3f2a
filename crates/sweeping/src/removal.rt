// Which nodes go: the deleted ones, and what lies under them.
ghost use Rattle.std.specs.Prelude.{◌≡◌, None};
ghost use Rattle.sweeping.specs.Sweeping.{is_under, is_deleted, goes, behind};

use lines::kind::Mark;
use lines::node::NodeLine;

// A walk over a master's lines: the depth of the deleted node that stands above the next one, if one does.
#[derive(Clone, Copy)]
pub struct Removal {
    pub above: Option<u8>,
}

impl Removal {
    pub fn new() -> Removal
        ensures { result.above ≡ None }
    {
        Removal { above: None }
    }

    #[tactic(auto, unfolding(crate::specs::Sweeping::is_under))]
    fn is_over(self, line: &NodeLine) -> bool
        ensures { result ≡ is_under self.above line.now.depth }
    {
        let depth = line.depth();
        self.above.is_some_and(|deleted| deleted < depth)
    }

    // Whether the line's node goes. The walk then stands behind it.
    #[tactic(auto, unfolding(crate::specs::Sweeping::goes, crate::specs::Sweeping::behind, crate::specs::Sweeping::is_deleted))]
    pub fn takes(&mut self, line: &NodeLine) -> bool
        ensures answer { result ≡ goes self.old.above line.now }
        ensures next { self.new.above ≡ behind self.old.above line.now }
    {
        if self.is_over(line) {
            return true;
        }
        // Stays: a mark is a byte of a line.
        let is_deleted = line.mark() == Mark::Deleted as u8;
        self.above = is_deleted.then_some(line.depth());
        is_deleted
    }
}
