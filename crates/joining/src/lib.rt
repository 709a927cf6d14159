// Joining places until no more follows. Links hold which places are joined: each place links to one that is not later, and two
// places are joined where their links lead to one end. (The field says union-find, and coreference closure.)
// To read in this order: links (ends, one join), sides (the two tables), rings (the places of a class), closing (the loop), roots
// (two sheets), guard.
#![tactic(auto)]

mod closing;
mod guard;
mod links;
mod rings;
mod roots;
mod sides;

pub use guard::Links;
pub use links::end_of;
pub use roots::join_roots;
