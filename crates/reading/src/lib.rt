// Reading a line as the text of a sheet or of a form, token by token, into a draft: the places and slots in the order of the text.
#![tactic(auto)]

pub mod draft;
pub mod drafting;
pub mod fault;
pub mod form;
mod forming;
pub mod path;
