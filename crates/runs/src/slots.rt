// The slots bound on the way down: each has its byte and the extent of its value.
ghost use Rattle.std.specs.Prelude.{◌≡◌, ◌<◌, ◌≤◌, Some, None, cond};
ghost use Rattle.values.specs.Values.{among};
ghost use Rattle.runs.specs.Engine.SlotWords.{no_slots, slot_at, one_more, bound_to};
ghost use Rattle.runs.specs.Engine.Runs.{bytes_to};

use values::extents::Extent;

#[derive(Clone, Copy)]
pub struct Slot {
    pub start: u16,
    pub byte: u8,
    pub len: u8,
}

// The first `count` of them are bound, the outermost first.
// Stays: an array with a count, since memory is fixed and there is no heap.
#[derive(Clone, Copy)]
pub struct SlotWords {
    pub bound: [Slot; 4],
    pub count: u8,
}

impl SlotWords {
    // No slot.
    pub fn none() -> SlotWords
        ensures { result ≡ no_slots }
    {
        let slot = Slot {
            start: 0,
            byte: 0,
            len: 0,
        };
        SlotWords {
            bound: [slot; 4],
            count: 0,
        }
    }

    // One slot more, the innermost.
    pub fn one_more(self, byte: u8, value: Extent) -> SlotWords
        requires { (self.count < 4) × (value.start < 0x10000) × (value.len < 0x100) }
        ensures { result ≡ one_more self byte value.start value.len }
    {
        let mut inner = self;
        inner.bound[self.count as usize] = Slot {
            start: value.start as u16,
            byte,
            len: value.len as u8,
        };
        inner.count += 1;
        inner
    }

    // The innermost slot of this byte, by its place from the outermost.
    pub fn find(self, byte: u8) -> Option<usize>
        requires { self.count ≤ 4 }
        ensures { result ≡ cond (among byte (bytes_to self self.count)) (Some (bound_to self byte)) None }
    {
        self.bound[..self.count as usize]
            .iter()
            .rposition(|slot| slot.byte == byte)
    }

    // The value of the slot at this place.
    pub fn value(self, k: usize) -> Extent
        requires { k < 4 }
        ensures { (result.start ≡ (slot_at self k).start) × (result.len ≡ (slot_at self k).len) }
    {
        let slot = self.bound[k];
        Extent {
            start: slot.start as usize,
            len: slot.len as usize,
        }
    }
}
