// The faults of show, with their numbers.
ghost use Rattle.showing.specs.Faults.{number_of};
ghost use Rattle.showing.specs.FaultLaws.{fault_layered};

use faults::Fault;

// Why a sheet was not shown.
#[derive(Clone, Copy, PartialEq, Eq, Debug)]
pub enum ShowFault {
    // The sheet shows nothing.
    NoPlace,
    // More than 99 places need a tag.
    TooManyTags,
    // More than 1,000 places are open at once. No sheet comes to this: the number stands for the limit.
    TooDeep,
    // The text is longer than 60,000 bytes or than the output.
    TooLong,
}

impl Fault for ShowFault {
    ghost numbers = { number_of };

    ghost layered = { fault_layered };

    fn number(self) -> u8 {
        match self {
            ShowFault::NoPlace => 51,
            ShowFault::TooManyTags => 37,
            ShowFault::TooDeep => 38,
            ShowFault::TooLong => 36,
        }
    }
}
