// Ranges of whole numbers as kinds: the volts, the weights and the sizes that an order may ask for.
#![tactic(auto)]

pub mod range;
