// Asks: the sheet that each stands for, and how it is laid beside the standing sheet in the work tables.
#![tactic(auto)]

// The sheet of an add, and its laws.
mod add;

// Records behind others.
mod moving;

// The standing sheet and an ask, side by side.
mod laying;

// What a call leaves of a table: blank records.
mod blanking;

pub use add::add_laws;
pub use blanking::blank_from;
pub use laying::lay_beside;
