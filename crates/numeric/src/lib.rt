// The numbers of document 01: comparisons, Close, Sum2 and the layer of a position, each equal to its definition for every double.
#![tactic(auto)]

pub mod close;
pub mod compare;
pub mod sum2;
pub mod whole;
