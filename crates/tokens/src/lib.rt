// Lines of bytes cut into tokens: brackets, hash signs, two dots, words and numbers.
#![tactic(auto)]

// The faults of the text layer.
pub mod fault;
// Tokens, the one that stands next on a line, and all of a line in order.
pub mod token;
