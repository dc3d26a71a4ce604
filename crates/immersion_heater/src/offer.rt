// What a heater offers its layer. `energy` is rated power × step length.
ghost use Rattle.std.specs.Prelude.{◌≡◌};
ghost use Rattle.immersion_heater.specs.Offer.{offer};

// The offer is added to a zero.
#[tactic(auto, unfolding(crate::specs::Offer::offer))]
pub fn potential_energy_input(on: bool, energy: f64) -> f64
    ensures { result ≡ offer on energy }
{
    0.0 + if on { energy } else { 0.0 }
}
