// What the heater supplies: `ImmersionHeater::demand_energy`, its control on.
ghost use Rattle.std.specs.Prelude.{◌≡◌};
ghost use Rattle.immersion_heater.specs.Supply.{demand, supply};

// A figure wide-close to 0 is 0.
#[tactic(auto, unfolding(crate::specs::Supply::demand))]
fn energy_demand(adjusted: f64) -> f64
    ensures { result ≡ demand adjusted }
{
    if numeric::close::is_wide_close(adjusted, 0.0) {
        0.0
    } else {
        adjusted
    }
}

// `cap` is the most that the heater can supply: rated power × step length.
#[tactic(auto, unfolding(crate::specs::Supply::supply))]
pub fn demand_energy(adjusted: f64, cap: f64) -> f64
    ensures { result ≡ supply adjusted cap }
{
    numeric::compare::min_of_2(energy_demand(adjusted), cap)
}
