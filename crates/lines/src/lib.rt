// Input that comes in pieces of any size, cut into lines.
#![tactic(auto)]

pub mod reader;
