// Sheets over their caller's tables. The check of a table is the one way to a sheet.
//
// fault: why a call is refused, with its number. sheet: a view of a checked table, or of nothing. table: the checks in their
// order. Whether a table's counts and targets are right and its names rise, records says; of names and numbers, the modules of table.
#![tactic(auto)]

pub mod fault;
pub mod sheet;
mod table;
