// A round of a mixing as its definition says it, on lent layers: every sum of it runs over all layers; and whether layers are in order.
#![tactic(auto)]

pub mod round;
