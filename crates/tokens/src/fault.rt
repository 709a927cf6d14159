// The faults of the text layer, with their numbers and bytes.
ghost use Rattle.std.specs.Prelude.{◌≡◌};
ghost use Rattle.tokens.specs.Faults.{text_number, text_byte};
ghost use Rattle.tokens.specs.FaultLaws.{text_layered};

use faults::Fault;

// Why a line is no list of tokens, with the byte of the line where that shows.
#[derive(Clone, Copy, PartialEq, Eq, Debug)]
pub enum TextFault {
    // The line has more than 60,000 bytes.
    LongLine,
    // A byte that begins no token, or a lone dot.
    NoToken(usize),
    // A word of more than 24 bytes.
    LongWord(usize),
    // A number of wrong form, or out of the range of 32 bits.
    WrongNumber(usize),
}

impl Fault for TextFault {
    ghost numbers = { text_number };

    ghost layered = { text_layered };

    fn number(self) -> u8 {
        match self {
            TextFault::LongLine => 10,
            TextFault::NoToken(_) => 11,
            TextFault::LongWord(_) => 12,
            TextFault::WrongNumber(_) => 13,
        }
    }
}

impl TextFault {
    pub fn byte(self) -> usize
        ensures { result ≡ text_byte self }
    {
        match self {
            TextFault::LongLine => 0,
            TextFault::NoToken(byte) | TextFault::LongWord(byte) | TextFault::WrongNumber(byte) =>
                byte,
        }
    }
}
