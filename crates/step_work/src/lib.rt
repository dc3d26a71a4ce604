// A step's work: checks, events, turns and end as one function.
#![tactic(auto)]

pub mod work;
