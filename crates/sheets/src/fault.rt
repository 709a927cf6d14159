// The faults of the sheet layer, with their numbers.
ghost use Rattle.sheets.specs.Faults.{number_of};
ghost use Rattle.sheets.specs.FaultLaws.{fault_layered};

use faults::Fault;

// Why a call of the sheet layer was refused.
#[derive(Clone, Copy, PartialEq, Eq, Debug)]
pub enum SheetFault {
    // No place is counted.
    NoPlace,
    // More places or slots than the limit or the tables allow.
    TooMany,
    // A path has a seventeenth name.
    LongPath,
    // Wrong slot counts, or a slot that leads to no place.
    WrongCounts,
    // A number of no name, or names that do not rise.
    WrongNames,
    // Places that are numbered otherwise than by the slots in turn.
    OtherNumbering,
}

impl Fault for SheetFault {
    ghost numbers = { number_of };

    ghost layered = { fault_layered };

    fn number(self) -> u8 {
        match self {
            SheetFault::NoPlace => 51,
            SheetFault::TooMany => 28,
            SheetFault::LongPath => 29,
            SheetFault::WrongCounts => 52,
            SheetFault::WrongNames => 53,
            SheetFault::OtherNumbering => 54,
        }
    }
}
