// What each two kinds of the catalogue have in common, as one constant table.
ghost use Rattle.std.specs.Prelude.{◌≡◌};
ghost use Rattle.kinds.specs.Catalogue.{shared, MeetTable};

use crate::catalogue::Catalogue;

// The answers of the meet, by two letters each: a kind of the catalogue, or none.
const TH: Option<Catalogue> = Some(Catalogue::Thing);

const WA: Option<Catalogue> = Some(Catalogue::Ware);

const EL: Option<Catalogue> = Some(Catalogue::Electrical);

const MO: Option<Catalogue> = Some(Catalogue::Mover);

const ST: Option<Catalogue> = Some(Catalogue::Striking);

const OU: Option<Catalogue> = Some(Catalogue::Outdoor);

const OM: Option<Catalogue> = Some(Catalogue::OutdoorMover);

const OS: Option<Catalogue> = Some(Catalogue::OutdoorStriker);

const SM: Option<Catalogue> = Some(Catalogue::SwingMotor);

const IS: Option<Catalogue> = Some(Catalogue::InsideStriker);

const XS: Option<Catalogue> = Some(Catalogue::OutsideStriker);

const CH: Option<Catalogue> = Some(Catalogue::ChimeHammer);

const CO: Option<Catalogue> = Some(Catalogue::Controller);

const BE: Option<Catalogue> = Some(Catalogue::Bell);

const HE: Option<Catalogue> = Some(Catalogue::Headstock);

const TU: Option<Catalogue> = Some(Catalogue::Tune);

const NO: Option<Catalogue> = None;

// The meet of each two kinds: a row for the first, a column for the second.
pub(crate) const MEETS: [[Option<Catalogue>; 16]; 16] = [
    // Thing
    [
        TH, WA, EL, MO, ST, OU, OM, OS, SM, IS, XS, CH, CO, BE, HE, TU,
    ],
    // Ware
    [
        WA, WA, EL, MO, ST, OU, OM, OS, SM, IS, XS, CH, CO, BE, HE, NO,
    ],
    // Electrical
    [
        EL, EL, EL, MO, ST, OM, OM, OS, SM, IS, XS, CH, CO, NO, NO, NO,
    ],
    // Mover
    [
        MO, MO, MO, MO, ST, OM, OM, OS, SM, IS, XS, CH, NO, NO, NO, NO,
    ],
    // Striking
    [
        ST, ST, ST, ST, ST, OS, OS, OS, NO, IS, XS, CH, NO, NO, NO, NO,
    ],
    // Outdoor
    [
        OU, OU, OM, OM, OS, OU, OM, OS, SM, IS, XS, NO, NO, BE, HE, NO,
    ],
    // OutdoorMover
    [
        OM, OM, OM, OM, OS, OM, OM, OS, SM, IS, XS, NO, NO, NO, NO, NO,
    ],
    // OutdoorStriker
    [
        OS, OS, OS, OS, OS, OS, OS, OS, NO, IS, XS, NO, NO, NO, NO, NO,
    ],
    // SwingMotor
    [
        SM, SM, SM, SM, NO, SM, SM, NO, SM, NO, NO, NO, NO, NO, NO, NO,
    ],
    // InsideStriker
    [
        IS, IS, IS, IS, IS, IS, IS, IS, NO, IS, NO, NO, NO, NO, NO, NO,
    ],
    // OutsideStriker
    [
        XS, XS, XS, XS, XS, XS, XS, XS, NO, NO, XS, NO, NO, NO, NO, NO,
    ],
    // ChimeHammer
    [
        CH, CH, CH, CH, CH, NO, NO, NO, NO, NO, NO, CH, NO, NO, NO, NO,
    ],
    // Controller
    [
        CO, CO, CO, NO, NO, NO, NO, NO, NO, NO, NO, NO, CO, NO, NO, NO,
    ],
    // Bell
    [
        BE, BE, NO, NO, NO, BE, NO, NO, NO, NO, NO, NO, NO, BE, NO, NO,
    ],
    // Headstock
    [
        HE, HE, NO, NO, NO, HE, NO, NO, NO, NO, NO, NO, NO, NO, HE, NO,
    ],
    // Tune
    [
        TU, NO, NO, NO, NO, NO, NO, NO, NO, NO, NO, NO, NO, NO, NO, TU,
    ],
];

// What a table of meets has for two kinds.
pub(crate) fn look_up(
    table: &[[Option<Catalogue>; 16]; 16],
    first: Catalogue,
    second: Catalogue,
) -> Option<Catalogue>
    requires { MeetTable table.now }
    ensures { result ≡ shared first second }
{
    table[first.index()][second.index()]
}
