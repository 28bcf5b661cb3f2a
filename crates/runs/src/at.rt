// Where a run stands: its entry, its source, the place of its value, the view that is put back, the levels left, and the slots bound on the way down.
ghost use Rattle.std.specs.Prelude.{◌≡◌, ◌≤◌, ◌<◌};
ghost use Rattle.runs.specs.Engine.Ats.{below_on, below_bound, with_view, at_root};

use crate::slots::SlotWords;
use crate::tree::LEVELS;
use values::extents::Extent;

// Wide fields first: it is copied at every level.
#[derive(Clone, Copy)]
pub struct At {
    pub source: Extent,
    pub top: usize,
    pub view: Extent,
    pub slots: SlotWords,
    pub entry: u8,
    pub levels: u8,
}

impl At {
    // A whole program on a source at the foot, with no slot.
    pub fn root(len: usize, top: usize, view: Extent) -> At
        ensures { result ≡ at_root len top view }
    {
        At {
            source: Extent { start: 0, len },
            top,
            view,
            slots: SlotWords::none(),
            entry: 0,
            levels: LEVELS,
        }
    }

    // One level down at this entry, on this source, with its value at this top.
    pub fn below_on(self, entry: u8, source: Extent, top: usize) -> At
        requires { 1 ≤ self.levels }
        ensures { result ≡ below_on self entry source top }
    {
        At {
            entry,
            source,
            top,
            levels: self.levels - 1,
            ..self
        }
    }

    // The same on the same source.
    pub fn below(self, entry: u8) -> At
        requires { 1 ≤ self.levels }
        ensures { result ≡ below_on self entry self.source self.top }
    {
        self.below_on(entry, self.source, self.top)
    }

    // Inside a bind: the slot is bound to the source, and the source is nothing.
    pub fn below_bound(self, byte: u8) -> At
        requires le_levels { (1 ≤ self.levels) × (self.entry < 255) }
        requires count_bound { (self.slots.count < 4) × (self.source.start < 0x10000) × (self.source.len < 0x100) }
        ensures { result ≡ below_bound self byte }
    {
        let slots = self.slots.one_more(byte, self.source);
        let nothing = Extent {
            start: self.top,
            len: 0,
        };
        At {
            slots,
            ..self.below_on(self.entry + 1, nothing, self.top)
        }
    }

    // The same with this view.
    pub fn seeing(self, view: Extent) -> At
        ensures { result ≡ with_view self view }
    {
        At { view, ..self }
    }
}
