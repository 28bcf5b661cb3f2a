// Why a call refuses: a case for each reply from 1 to 11, with the place that it names.
ghost use Rattle.std.specs.Prelude.{◌≡◌, ◌<◌};
ghost use Rattle.calls.specs.Refusals.{number_of, place_of, of_stop};

use runs::stop::Stop;

#[derive(Clone, Copy, PartialEq, Eq, Debug)]
pub enum Refusal {
    Room,
    ProgramLine(usize),
    ProgramTree(u8),
    MasterLine(usize),
    MasterRule(usize),
    Source(u8),
    Size(u8),
    ViewLine(usize),
    ViewDiffers(usize),
    ProgramMark(usize),
    Clash(usize),
}

impl Refusal {
    pub fn number(self) -> u8
        ensures { result ≡ number_of self }
    {
        match self {
            Refusal::Room => 1,
            Refusal::ProgramLine(_) => 2,
            Refusal::ProgramTree(_) => 3,
            Refusal::MasterLine(_) => 4,
            Refusal::MasterRule(_) => 5,
            Refusal::Source(_) => 6,
            Refusal::Size(_) => 7,
            Refusal::ViewLine(_) => 8,
            Refusal::ViewDiffers(_) => 9,
            Refusal::ProgramMark(_) => 10,
            Refusal::Clash(_) => 11,
        }
    }

    pub fn place(self) -> usize
        ensures { result ≡ place_of self }
    {
        match self {
            Refusal::Room => 0,
            Refusal::ProgramLine(line)
            | Refusal::MasterLine(line)
            | Refusal::MasterRule(line)
            | Refusal::ViewLine(line)
            | Refusal::ViewDiffers(line)
            | Refusal::ProgramMark(line) => line,
            Refusal::ProgramTree(entry) | Refusal::Source(entry) | Refusal::Size(entry) => {
                entry as usize
            }
            Refusal::Clash(node) => node,
        }
    }
}

impl From<Stop> for Refusal {
    ghost from_gives = { λ stop refusal. (refusal ≡ of_stop stop) × (place_of refusal < 256) };

    fn from(stop: Stop) -> Refusal {
        match stop {
            Stop::Source(entry) => Refusal::Source(entry),
            Stop::Size(entry) => Refusal::Size(entry),
        }
    }
}
