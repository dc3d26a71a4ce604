// The feed and its cold water, and `extract_hot_water`: what an event takes from the layers.
#![tactic(auto)]

pub mod cold;
pub mod draw;
