// The checks of make and of a step, and the first of them that does not pass.
#![tactic(auto)]

pub mod calls;
pub mod checks;
