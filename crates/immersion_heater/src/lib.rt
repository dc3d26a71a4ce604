// An immersion heater's turn: its switch-on, what it offers, `calc_final_temps`, its supply and its switch-off.
#![tactic(auto)]

pub mod offer;
pub mod supply;
pub mod turn;
