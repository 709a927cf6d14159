// From a number to the name that has it.
ghost use Rattle.std.specs.Prelude.{◌≡◌, ◌<◌, ◌≤◌, ◌⊎◌, Decides, MatchOption};
ghost use Rattle.names.specs.Names.{IsName};
ghost use Rattle.names.specs.Spellings.{byte, shown, Spells, SpeltAs, ThereAndBack};

use crate::ROOM;
use crate::spelling::Spelling;
use arrayvec::ArrayString;

// The number of `a`, the least of all names.
const LEAST: u64 = 238_572_050_223_552_512;

// The number of `z___________`, the greatest of all names.
const GREATEST: u64 = 6_441_445_356_035_917_823;

impl Spelling {
    // The bytes of the name.
    pub fn as_bytes(&self) -> &[u8]
        ensures { result.now ≡ shown self.now }
    {
        self.name.as_str().as_bytes()
    }
}

// The character of a figure, and none where no name has the figure.
fn char_of(figure: u64) -> Option<char>
    ensures { MatchOption result ((figure ≡ 0) ⊎ (37 < figure)) (λ c. (0 < figure) × (figure ≤ 37) × (c ≡ byte figure)) }
{
    match figure {
        1..=26 => Some(char::from(b'a' + (figure - 1) as u8)),
        27..=36 => Some(char::from(b'0' + (figure - 27) as u8)),
        37 => Some('_'),
        _ => None,
    }
}

// The name that has the number, and none where no name has it.
pub fn spelling(number: u64) -> Option<Spelling>
    ensures answer { Spells number result }
    ensures spelt { SpeltAs number result }
    ensures laws { ThereAndBack }
{
    if number < LEAST || number > GREATEST {
        return None;
    }
    let mut name = ArrayString::new();
    let mut weight = ROOM;
    let mut rest = number;
    while rest > 0 {
        weight /= 38;
        name.push(char_of(rest / weight)?);
        rest %= weight;
    }
    Some(Spelling { name })
}

// Whether some name has the number.
pub fn is_name(number: u64) -> bool
    ensures { Decides result (IsName number) }
{
    spelling(number).is_some()
}
