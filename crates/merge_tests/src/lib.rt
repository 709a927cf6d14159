// Tests at run time of the merge through a job's add, of the check of a table, and of names. What is expected was worked out by
// hand from the rules.
#![tactic(auto)]

#[cfg(test)]
mod tests;
