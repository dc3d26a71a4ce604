// The call that reads a job: the record at a position, by what came before it. Any bytes, any position, any numbers before are taken.
#![tactic(auto)]

pub mod read;
pub mod reader;
