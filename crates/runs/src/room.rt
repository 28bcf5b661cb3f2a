// What may still stand below an entry of a program, and the slots bound there.
ghost use Rattle.std.specs.Prelude.{◌≡◌, true, ◌+◌, ◌≤◌};

// The slots stand from the outermost on.
// Stays: an array with a count, since memory is fixed and there is no heap.
// Stays: apart from `SlotWords`, as here the slots' bytes alone are known.
#[derive(Clone, Copy)]
pub struct Room {
    pub eaches: u8,
    pub binds: u8,
    pub bytes: [u8; 4],
    pub count: usize,
    // Each 0C that is left has a place for its slot.
    ghost kept: { count + binds ≤ 4 },
}

impl Room {
    ghost use Rattle.values.specs.Values.{among};
    ghost use Rattle.runs.specs.Reading.{whole_room, inside_each, inside_bind};
    ghost use Rattle.runs.specs.Engine.Checking.{may_stand, room_inside};
    ghost use Rattle.runs.specs.Engine.Rooms.{room_of};

    #[tactic(auto, unfolding(crate::specs::Engine::Rooms::slots_of))]
    pub(crate) fn whole() -> Room
        ensures { room_of result ≡ whole_room }
    {
        Room {
            eaches: 3,
            binds: 4,
            bytes: [0; 4],
            count: 0,
        }
    }

    fn is_bound(self, byte: u8) -> bool
        ensures { result ≡ among byte (room_of self).slots }
    {
        self.bytes[..self.count].contains(&byte)
    }

    // Whether an entry of this operation and slot byte may stand here: 0A and 0C while some are left, 05 inside a 0C of its slot.
    // Stays: the operations are the bytes of the table, as the rules name them.
    #[tactic(auto, unfolding(crate::specs::Engine::Checking::may_stand))]
    pub(crate) fn may_stand(self, operation: u8, byte: u8) -> bool
        ensures { result ≡ may_stand operation byte (room_of self) }
    {
        match operation {
            0x0A => 1 <= self.eaches,
            0x0C => 1 <= self.binds,
            0x05 => self.is_bound(byte),
            _ => true,
        }
    }

    fn inside_each(self) -> Room
        requires { 1 ≤ self.eaches }
        ensures { room_of result ≡ inside_each (room_of self) }
    {
        let mut inner = self;
        inner.eaches -= 1;
        inner
    }

    #[tactic(auto, using(crate::proofs::TreeCheckRooms::slots_bound))]
    fn inside_bind(self, byte: u8) -> Room
        requires { 1 ≤ self.binds }
        ensures { room_of result ≡ inside_bind byte (room_of self) }
    {
        let mut bytes = self.bytes;
        bytes[self.count] = byte;
        Room {
            eaches: self.eaches,
            binds: self.binds - 1,
            bytes,
            count: self.count + 1,
        }
    }

    // What such an entry leaves to those below it.
    #[tactic(auto, unfolding(crate::specs::Engine::Checking::may_stand, crate::specs::Engine::Checking::room_inside))]
    pub(crate) fn below(self, operation: u8, byte: u8) -> Room
        requires { may_stand operation byte (room_of self) ≡ true }
        ensures { room_of result ≡ room_inside operation byte (room_of self) }
    {
        match operation {
            0x0A => self.inside_each(),
            0x0C => self.inside_bind(byte),
            _ => self,
        }
    }
}
