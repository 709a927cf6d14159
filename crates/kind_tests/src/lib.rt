// Tests of the kinds at run time: forms that are no kind's, refused ranges, and meets and orders by hand.
#![tactic(auto)]

#[cfg(test)]
mod tests;
