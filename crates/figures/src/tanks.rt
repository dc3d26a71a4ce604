// What the figures are run on. Unless a figure says otherwise: density, specific heat and step length 1, standby loss 0, ambient 20, feed 12.
use draw_events::event::MAX_EVENTS;
use set_points::SetPoints;
use tank_model::{Heater, Step, TankDesign};
use working_order::MAX_HEATERS;

// A heater with its thermostat in its own layer.
pub fn heater(rated: f64, position: f64) -> Heater {
    Heater {
        rated,
        position,
        thermostat: None,
    }
}

// One whose thermostat sits elsewhere.
pub fn heater_with(rated: f64, position: f64, thermostat: f64) -> Heater {
    Heater {
        thermostat: Some(thermostat),
        ..heater(rated, position)
    }
}

// A tank with no heaters.
pub fn plain(layers: usize, volume: f64, initial: f64) -> TankDesign {
    TankDesign {
        layers,
        volume,
        standby: 0.0,
        initial,
        rho: 1.0,
        cp: 1.0,
        ambient: 20.0,
        timestep: 1.0,
        heaters: 0,
        fitted: [Heater::default(); MAX_HEATERS],
    }
}

// Two layers at 40.
pub fn two_layers() -> TankDesign {
    plain(2, 32.0, 40.0)
}

// They, and a heater of 160 kW at position 0.
pub fn one_heater() -> TankDesign {
    with_heaters(two_layers(), &[heater(160.0, 0.0)])
}

// With so many heaters, all alike.
pub fn with_alike(m: TankDesign, heaters: usize, h: Heater) -> TankDesign {
    TankDesign {
        heaters,
        fitted: [h; MAX_HEATERS],
        ..m
    }
}

// What is given, in the first places.
fn put_first<T: Copy>(places: &mut [T], given: &[T]) {
    for (place, x) in places.iter_mut().zip(given) {
        *place = *x;
    }
}

// With heaters as given.
pub fn with_heaters(mut m: TankDesign, given: &[Heater]) -> TankDesign {
    m.heaters = given.len();
    put_first(&mut m.fitted, given);
    m
}

// n events of one volume, for a tank of no heaters.
pub fn draws(feed: f64, n: usize, volume: f64) -> Step {
    Step {
        feed,
        events: n,
        volumes: [volume; MAX_EVENTS],
        entries: 0,
        settings: [SetPoints::Neither; MAX_HEATERS],
    }
}

// No events, and the same set points for each of n heaters.
pub fn heats(n: usize, points: SetPoints) -> Step {
    Step {
        feed: 12.0,
        events: 0,
        volumes: [0.0; MAX_EVENTS],
        entries: n,
        settings: [points; MAX_HEATERS],
    }
}

// With set points for the heaters as given.
pub fn with_points(mut a: Step, given: &[SetPoints]) -> Step {
    a.entries = given.len();
    put_first(&mut a.settings, given);
    a
}
