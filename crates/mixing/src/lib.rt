// What a mixing of a cylinder's layers is: its definitions and their laws, and its limits. The crate `rearrange` works it.
#![tactic(auto)]

pub mod limits;
