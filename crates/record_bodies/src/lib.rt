// The bodies of a job's records, by their kinds: a tank, a heater, a step. The crate `job_reader` has looked at the length and calls them.
#![tactic(auto)]

pub mod fields;
pub mod kinds;
