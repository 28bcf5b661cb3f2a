// What a node's line is, and what its mark says, by their bytes.
ghost use Rattle.std.specs.Prelude.{◌≡◌};
ghost use Rattle.lines.specs.Nodes.{kind_of, mark_of};

#[derive(Clone, Copy, PartialEq, Eq)]
pub enum Kind {
    Text = 1,
    Element = 2,
    Order = 3,
}

#[derive(Clone, Copy, PartialEq, Eq)]
pub enum Mark {
    Untouched = 0,
    Changed = 1,
    Deleted = 2,
}

impl Kind {
    #[tactic(auto, using(std::proofs::lemmas::Bool::Decides::nat_tests), unfolding(crate::specs::Nodes::kind_of))]
    pub fn of(byte: u8) -> Option<Kind>
        ensures { result ≡ kind_of byte }
    {
        match byte {
            1 => Some(Kind::Text),
            2 => Some(Kind::Element),
            3 => Some(Kind::Order),
            _ => None,
        }
    }
}

impl Mark {
    #[tactic(auto, using(std::proofs::lemmas::Bool::Decides::nat_tests), unfolding(crate::specs::Nodes::mark_of))]
    pub fn of(byte: u8) -> Option<Mark>
        ensures { result ≡ mark_of byte }
    {
        match byte {
            0 => Some(Mark::Untouched),
            1 => Some(Mark::Changed),
            2 => Some(Mark::Deleted),
            _ => None,
        }
    }
}
