// Names of slots and their numbers. A name is 1 to 12 bytes, and in tables it is a number of 64 bits: its bytes as twelve
// figures in base 38. Each name has one number, and each such number one name.
#![tactic(auto)]

pub mod number;
pub mod spelling;

// 38 to the twelfth power: one more than the greatest number of twelve figures.
const ROOM: u64 = 9_065_737_908_494_995_456;
