// The kinds of two types side by side, under one greatest kind.
#![tactic(auto)]

pub mod either;
