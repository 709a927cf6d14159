// The catalogue: the sixteen kinds of things that the workshop makes and buys. Each has an 8-bit code with a bit for each
// least kind at or below it, so that the order is inclusion of bits.
mod meets;
pub mod table;

#[derive(Clone, Copy, PartialEq, Eq, Debug)]
pub enum Catalogue {
    Thing,
    Ware,
    Electrical,
    Mover,
    Striking,
    Outdoor,
    OutdoorMover,
    OutdoorStriker,
    SwingMotor,
    InsideStriker,
    OutsideStriker,
    ChimeHammer,
    Controller,
    Bell,
    Headstock,
    Tune,
}
