// Why a line was not read: a refusal of the text layer whole, or the rule of the grammar or of sheets as text that the line breaks.
ghost use Rattle.std.specs.Prelude.{◌≡◌};
ghost use Rattle.reading.specs.Faults.{rule_number, number_of, byte_of};
ghost use Rattle.reading.specs.FaultLaws.{fault_layered};
ghost use Rattle.reading.specs.declared.fault.ReadFault.TheVariants.{Text};

use faults::Fault;
use tokens::fault::TextFault;

// A rule of the grammar or of sheets as text.
#[derive(Clone, Copy, PartialEq, Eq, Debug)]
pub enum Rule {
    // A token that the grammar does not allow there, or an early end.
    NotAllowed,
    // A word or a range that is no kind.
    NoKind,
    // A range whose low end is above its high end.
    LowAboveHigh,
    // A name of more than 12 bytes.
    LongName,
    // A name for the second time at one place.
    NameTwice,
    // A tag that is described for the second time.
    TagTwice,
    // A tag that is referred to and nowhere described.
    TagNever,
    // A tag that is not 1 to 99.
    TagNumber,
    // More places or slots than the limit or the tables allow.
    TooMany,
    // A path with a seventeenth name.
    LongPath,
}

// Why a line was refused.
#[derive(Clone, Copy, PartialEq, Eq, Debug)]
pub enum ReadFault {
    // A refusal of the text layer.
    Text(TextFault),
    // The line breaks the rule at this byte.
    Broken(Rule, usize),
}

impl From<TextFault> for ReadFault {
    ghost from_gives = { λ x y. y ≡ Text x };

    fn from(fault: TextFault) -> ReadFault {
        ReadFault::Text(fault)
    }
}

impl Rule {
    fn number(self) -> u8
        ensures { result ≡ rule_number self }
    {
        match self {
            Rule::NotAllowed => 20,
            Rule::NoKind => 21,
            Rule::LowAboveHigh => 22,
            Rule::LongName => 23,
            Rule::NameTwice => 24,
            Rule::TagTwice => 25,
            Rule::TagNever => 26,
            Rule::TagNumber => 27,
            Rule::TooMany => 28,
            Rule::LongPath => 29,
        }
    }
}

impl Fault for ReadFault {
    ghost numbers = { number_of };

    ghost layered = { fault_layered };

    fn number(self) -> u8 {
        match self {
            ReadFault::Text(fault) => fault.number(),
            ReadFault::Broken(rule, _) => rule.number(),
        }
    }
}

impl ReadFault {
    // The byte of the line where the fault shows.
    pub fn byte(self) -> Option<usize>
        ensures { result ≡ byte_of self }
    {
        match self {
            ReadFault::Text(fault) => Some(fault.byte()),
            ReadFault::Broken(_, byte) => Some(byte),
        }
    }
}
