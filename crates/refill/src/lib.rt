// `calc_temps_after_extraction`: the layers take water again, from those below them and from the feed.
#![tactic(auto)]

pub mod layers;
