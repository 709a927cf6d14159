// Vocabularies: how the kinds of a type are written in a line, and what the words and ranges of a line read as.
#![tactic(auto)]

pub mod alone;
pub mod orders;
pub mod vocabulary;
mod words;
