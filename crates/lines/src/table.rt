// The one table of operations: operand shape and number of sub-entries.
// Stays: an operation is a byte, as an entry may have any there; ranges tell its class.
ghost use Rattle.std.specs.Prelude.{◌≡◌};
ghost use Rattle.lines.specs.Entries.{class_of, row_of, operand_shape, subs_of};

#[derive(Clone, Copy, PartialEq, Eq)]
pub enum Class {
    Transformation,
    Test,
}

#[derive(Clone, Copy, PartialEq, Eq)]
pub enum Shape {
    Nothing,
    Text,
    Tag,
    Slot,
}

// An operation's operand shape, and how many sub-entries it has.
#[derive(Clone, Copy, PartialEq, Eq)]
pub struct Row {
    pub shape: Shape,
    pub subs: u8,
}

macro_rules! row {
    ($shape:ident, $subs:literal) => {
        Some(Row { shape: Shape::$shape, subs: $subs })
    };
}

const ROWS: [Option<Row>; 20] = [
    None, // 00
    row!(Nothing, 0), // 01 the source itself
    row!(Nothing, 0), // 02 nothing
    row!(Text, 0), // 03 a text from the program
    row!(Tag, 0), // 04 an empty element from the program
    row!(Slot, 0), // 05 the value of the slot
    row!(Nothing, 0), // 06 the contents of an element
    row!(Nothing, 1), // 07 an element with contents run through X
    row!(Nothing, 2), // 08 X1, then X2 on its result
    row!(Nothing, 2), // 09 both on the same source, joined
    row!(Nothing, 1), // 0A X on each top node, joined
    row!(Nothing, 3), // 0B if P then X1 else X2
    row!(Slot, 1), // 0C bind the slot to the source, run X on nothing
    None, // 0D
    None, // 0E
    None, // 0F
    None, // 10
    row!(Nothing, 1), // 11 test: source text equals X run on nothing
    row!(Tag, 0), // 12 test: element with this tag
    row!(Nothing, 0), // 13 test: is an element
];

#[tactic(auto, using(std::proofs::lemmas::Option::gets), unfolding(crate::specs::Entries::row_of, crate::specs::Entries::rows))]
pub fn row_of(operation: u8) -> Option<Row>
    ensures { result ≡ row_of operation }
{
    *ROWS.get(operation as usize)?
}

pub fn operand_shape(operation: u8) -> Option<Shape>
    ensures { result ≡ operand_shape operation }
{
    row_of(operation).map(|row| row.shape)
}

// How many sub-entries an operation has; 0 for any other byte.
pub fn subs_of(operation: u8) -> u8
    ensures { result ≡ subs_of operation }
{
    row_of(operation).map_or(0, |row| row.subs)
}

#[tactic(auto, using(std::proofs::lemmas::Bool::Decides::nat_tests), unfolding(crate::specs::Entries::class_of))]
pub fn class_of(operation: u8) -> Option<Class>
    ensures { result ≡ class_of operation }
{
    match operation {
        0x01..=0x0C => Some(Class::Transformation),
        0x11..=0x13 => Some(Class::Test),
        _ => None,
    }
}
