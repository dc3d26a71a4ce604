// The calls make, step and mix for C and Rust: a tank, a step and a report are lent as arrays, in the layout that compare/README.md tells.
// An array is lent with its length in its type, so no call can be given one of a wrong length. What is read of any memory that C lends is said, and proved over
// the bytes (`lent_tank`).
#![tactic(auto)]

pub mod calls;
