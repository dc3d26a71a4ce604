// A tank, from the arrays that hold it and back.
ghost use Rattle.std.specs.Prelude.{◌≡◌, [], ◌∷◌, unwrap_or};
ghost use Rattle.numeric.specs.Double.{zero_f};
ghost use Rattle.lent_tank.specs.Layout.{fitted_in, heaters_of, thermostats_of};
ghost use Rattle.lent_tank.specs.Flags.{flags_in};
ghost use Rattle.lent_tank.specs.Tanks.{cylinder_in, tank_in, design_in, counts_of, numbers_of};

use crate::flags::flag_in;
use crate::{THREE_EACH, TWO_EACH};
use cylinder::Cylinder;
use mixing::limits::MAX_LAYERS;
use storage_tank::StorageTank;
use tank_model::{Heater, TankDesign};
use working_order::MAX_HEATERS;

// Layers, and volume, standby loss, density, specific heat, ambient temperature and step length.
pub fn cylinder_in(counts: &[usize; 2], numbers: &[f64; 6]) -> Cylinder
    ensures { result ≡ cylinder_in counts.now numbers.now }
{
    let [layers, _] = *counts;
    let [volume, standby, rho, cp, ambient, timestep] = *numbers;
    Cylinder {
        layers,
        volume,
        standby,
        rho,
        cp,
        ambient,
        timestep,
    }
}

// Rated powers stand first, then positions, then thermostat positions, of which an absent one is not looked at.
pub fn fitted_in(
    heaters: &[f64; THREE_EACH],
    thermostats: &[u8; MAX_HEATERS],
) -> [Heater; MAX_HEATERS]
    ensures { result ≡ fitted_in heaters.now (flags_in thermostats.now) }
{
    std::array::from_fn(|h| Heater {
        rated: heaters[h],
        position: heaters[MAX_HEATERS + h],
        thermostat: flag_in(thermostats[h]).then_some(heaters[TWO_EACH + h]),
    })
}

// An absent thermostat's position is zero.
pub fn heaters_of(fitted: &[Heater; MAX_HEATERS]) -> [f64; THREE_EACH]
    ensures { result ≡ heaters_of fitted.now }
{
    crate::three_each(
        fitted,
        |x: Heater| -> [f64; 3]
            ensures { result ≡ x.rated ∷ x.position ∷ unwrap_or x.thermostat zero_f ∷ [] }
        { [x.rated, x.position, x.thermostat.unwrap_or(0.0)] },
    )
}

// Whether a thermostat has a position of its own.
#[tactic(auto, unfolding(crate::specs::Layout::thermostats_of, numeric::specs::Tabulate::tabulate))]
pub fn thermostats_of(fitted: &[Heater; MAX_HEATERS]) -> [bool; MAX_HEATERS]
    ensures { result ≡ thermostats_of fitted.now }
{
    std::array::from_fn(|h| fitted[h].thermostat.is_some())
}

pub fn tank_in(
    counts: &[usize; 2],
    numbers: &[f64; 6],
    temps: &[f64; MAX_LAYERS],
    heaters: &[f64; THREE_EACH],
    thermostats: &[u8; MAX_HEATERS],
    flags: &[u8; MAX_HEATERS],
) -> StorageTank
    ensures { result ≡ tank_in counts.now numbers.now temps.now heaters.now thermostats.now flags.now }
{
    let c = cylinder_in(counts, numbers);
    StorageTank {
        layers: c.layers,
        volume: c.volume,
        standby: c.standby,
        rho: c.rho,
        cp: c.cp,
        ambient: c.ambient,
        timestep: c.timestep,
        temps: *temps,
        heaters: counts[1],
        fitted: fitted_in(heaters, thermostats),
        flags: crate::flags::flags_in(flags),
    }
}

#[tactic(auto, unfolding(crate::specs::Tanks::design_in))]
pub fn design_in(
    counts: &[usize; 2],
    numbers: &[f64; 6],
    initial: f64,
    heaters: &[f64; THREE_EACH],
    thermostats: &[u8; MAX_HEATERS],
) -> TankDesign
    ensures { result ≡ design_in counts.now numbers.now initial heaters.now thermostats.now }
{
    let c = cylinder_in(counts, numbers);
    TankDesign {
        layers: c.layers,
        volume: c.volume,
        standby: c.standby,
        initial,
        rho: c.rho,
        cp: c.cp,
        ambient: c.ambient,
        timestep: c.timestep,
        heaters: counts[1],
        fitted: fitted_in(heaters, thermostats),
    }
}

pub fn counts_of(t: &StorageTank) -> [usize; 2]
    ensures { result ≡ counts_of t.now }
{
    [t.layers, t.heaters]
}

pub fn numbers_of(t: &StorageTank) -> [f64; 6]
    ensures { result ≡ numbers_of t.now }
{
    [t.volume, t.standby, t.rho, t.cp, t.ambient, t.timestep]
}
