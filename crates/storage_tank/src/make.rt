// The call make: `StorageTank::new`.
// Kept: counts of at most 32 layers and 8 heaters asked: they fill arrays of the most that 01 prescribes, as nothing is on a heap. Checks 1 and 2 come first.
ghost use Rattle.std.specs.Prelude.{◌≡◌, ◌++◌, ◌≤◌, drop, length, replicate};
ghost use Rattle.numeric.specs.Double.{zero_f};
ghost use Rattle.mixing.specs.Limits.{max_layers};
ghost use Rattle.working_order.specs.Order.{max_heaters};
ghost use Rattle.storage_tank.specs.Calls.{fitted_heaters, zero_tank, new_tank, made};

use crate::{Made, StorageTank};
use mixing::limits::MAX_LAYERS;
use tank_model::{Heater, TankDesign};
use working_order::MAX_HEATERS;

// n layers at x, and zeros past them.
fn initial_temps(n: usize, x: f64) -> [f64; MAX_LAYERS]
    requires { n ≤ max_layers }
    ensures { result ≡ replicate n x ++ drop n (replicate max_layers zero_f) }
{
    let mut temps = [0.0; MAX_LAYERS];
    temps[..n].fill(x);
    temps
}

// The heaters as given, and zeros past them.
fn fitted_heaters(fitted: &[Heater]) -> [Heater; MAX_HEATERS]
    requires { length fitted.now ≤ max_heaters }
    ensures { result ≡ fitted_heaters (length fitted.now) fitted.now }
{
    let mut heaters = [Heater::default(); MAX_HEATERS];
    heaters[..fitted.len()].copy_from_slice(fitted);
    heaters
}

// No layers, no heaters and zeros.
// Kept: beside the derived default, of which it says once for its callers that all of it is zeros.
pub fn zero_tank() -> StorageTank
    ensures { result ≡ zero_tank }
{
    StorageTank::default()
}

// The layers at the initial temperature, and the flags off.
fn new_tank(m: TankDesign) -> StorageTank
    requires { (m.layers ≤ max_layers) × (m.heaters ≤ max_heaters) }
    ensures { result ≡ new_tank m }
{
    StorageTank {
        layers: m.layers,
        volume: m.volume,
        standby: m.standby,
        rho: m.rho,
        cp: m.cp,
        ambient: m.ambient,
        timestep: m.timestep,
        temps: initial_temps(m.layers, m.initial),
        heaters: m.heaters,
        fitted: fitted_heaters(&m.fitted[..m.heaters]),
        flags: [false; MAX_HEATERS],
    }
}

impl StorageTank {
    // Makes a tank, for any counts and numbers, or refuses by the first of 01's checks 1 to 5 that does not pass.
    pub fn new(m: TankDesign) -> Made
        ensures { result ≡ made m }
    {
        let outcome = tank_refusals::calls::make_refusal(&m);
        let tank = match outcome {
            Ok(_) => new_tank(m),
            Err(_) => zero_tank(),
        };
        Made { outcome, tank }
    }
}
