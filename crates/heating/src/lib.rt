// What the layers come to that are offered heat: `calc_final_temps` heats, mixes, loses and limits, whatever is offered.
#![tactic(auto)]

pub mod final_temps;
pub mod heat;
