// Reading a line as the text of a sheet: its draft is arranged into tables and numbered as every sheet is.
#![tactic(auto)]

mod arranging;
mod blanking;
pub mod place;
