// Kinds: what a place of a sheet may be. A type of kind implements `kind::Kind`; the catalogue is one.
#![tactic(auto)]

pub mod catalogue;
pub mod kind;
