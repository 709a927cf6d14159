// The kinds of the catalogue: their codes and words, and the catalogue as a type of kind.
ghost use Rattle.std.specs.Prelude.{◌≡◌, Some};
ghost use Rattle.std.specs.Fmt.{padded};
ghost use Rattle.kinds.specs.Catalogue.{Within, listed, index, code, word, kind_at, shared, MeetRule};
ghost use Rattle.kinds.specs.CatalogueLaws.{catalogue_laws, catalogue_meets};
ghost use Rattle.kinds.specs.declared.catalogue.Catalogue.TheVariants.{Thing};

use crate::catalogue::Catalogue;
use crate::catalogue::meets::{MEETS, look_up};
use crate::kind::Kind;
use std::fmt;

// The kinds in the catalogue's order; the stored form of each is its number in this list.
const KINDS: [Catalogue; 16] = [
    Catalogue::Thing,
    Catalogue::Ware,
    Catalogue::Electrical,
    Catalogue::Mover,
    Catalogue::Striking,
    Catalogue::Outdoor,
    Catalogue::OutdoorMover,
    Catalogue::OutdoorStriker,
    Catalogue::SwingMotor,
    Catalogue::InsideStriker,
    Catalogue::OutsideStriker,
    Catalogue::ChimeHammer,
    Catalogue::Controller,
    Catalogue::Bell,
    Catalogue::Headstock,
    Catalogue::Tune,
];

impl Catalogue {
    // All kinds, in the catalogue's order.
    pub fn all() -> [Catalogue; 16]
        ensures { result ≡ listed }
    {
        KINDS
    }

    // The kind's number in the catalogue's order, from 0.
    pub fn index(self) -> usize
        ensures { result ≡ index self }
    {
        self as usize
    }

    pub fn code(self) -> u8
        ensures { result ≡ code self }
    {
        match self {
            Catalogue::Thing => 0xFF,
            Catalogue::Ware => 0x7F,
            Catalogue::Electrical => 0x1F,
            Catalogue::Mover => 0x0F,
            Catalogue::Striking => 0x0E,
            Catalogue::Outdoor => 0x67,
            Catalogue::OutdoorMover => 0x07,
            Catalogue::OutdoorStriker => 0x06,
            Catalogue::SwingMotor => 0x01,
            Catalogue::InsideStriker => 0x02,
            Catalogue::OutsideStriker => 0x04,
            Catalogue::ChimeHammer => 0x08,
            Catalogue::Controller => 0x10,
            Catalogue::Bell => 0x20,
            Catalogue::Headstock => 0x40,
            Catalogue::Tune => 0x80,
        }
    }

    // The kind as sheets spell it.
    pub fn word(self) -> &'static str
        ensures { result.now ≡ word self }
    {
        match self {
            Catalogue::Thing => "thing",
            Catalogue::Ware => "ware",
            Catalogue::Electrical => "electrical",
            Catalogue::Mover => "mover",
            Catalogue::Striking => "striking",
            Catalogue::Outdoor => "outdoor",
            Catalogue::OutdoorMover => "outdoor_mover",
            Catalogue::OutdoorStriker => "outdoor_striker",
            Catalogue::SwingMotor => "swing_motor",
            Catalogue::InsideStriker => "inside_striker",
            Catalogue::OutsideStriker => "outside_striker",
            Catalogue::ChimeHammer => "chime_hammer",
            Catalogue::Controller => "controller",
            Catalogue::Bell => "bell",
            Catalogue::Headstock => "headstock",
            Catalogue::Tune => "tune",
        }
    }
}

// A kind is printed as its word.
impl fmt::Display for Catalogue {
    ghost output = { λ kind. Some (word kind) };

    ghost styled_output = { λ kind spec. Some (padded spec (word kind)) };

    fn fmt<W: fmt::Write>(&self, f: &mut fmt::Formatter<W>) -> fmt::Result {
        f.pad(self.word())
    }
}

impl Kind for Catalogue {
    // A number and no enum: callers keep the form in their own records, where any number may stand.
    type Form = u8;

    ghost below = { Within };

    ghost top = { Thing };

    ghost form = { index };

    ghost kind = { kind_at };

    ghost laws = { catalogue_laws };

    ghost common = { shared };

    ghost meets = { catalogue_meets };

    fn greatest() -> Catalogue {
        Self::Thing
    }

    fn at_or_below(self, other: Catalogue) -> bool {
        self.code() & other.code() == self.code()
    }

    fn meet(self, other: Catalogue) -> Option<Catalogue>
        ensures value { result ≡ shared self other }
        ensures rule { MeetRule self other result }
    {
        look_up(&MEETS, self, other)
    }

    fn store(self) -> u8 {
        self as u8
    }

    fn read(stored: u8) -> Option<Catalogue> {
        KINDS.get(usize::from(stored)).copied()
    }
}
