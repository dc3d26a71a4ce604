// The refusals, each drawn at the edge of what is accepted.
use crate::{answers, tanks};
use set_points::SetPoints;
use std::io;
use storage_tank::{Report, StorageTank};
use tank_model::{Step, TankDesign};

// 1 + 2^-52.
const JUST_ABOVE_ONE: f64 = 1.0000000000000002;

// Tanks, each made alone.
fn make_each(rt: &impl Print, designs: [TankDesign; 4]) -> io::Result<()> {
    for m in designs {
        answers::make(rt, m)?;
    }
    Ok(())
}

// 3 and 4: each number that may be wrong, alone.
fn make_numbers(rt: &impl Print) -> io::Result<()> {
    let two = tanks::two_layers();
    println!(rt; "# 3: volume, density, specific heat, step length")?;
    make_each(
        rt,
        [
            TankDesign { volume: 0.0, ..two },
            TankDesign {
                rho: f64::NAN,
                ..two
            },
            TankDesign {
                cp: f64::INFINITY,
                ..two
            },
            TankDesign {
                timestep: -1.0,
                ..two
            },
        ],
    )?;
    println!(rt; "# 4: standby loss, initial, ambient; a standby loss of -0 is accepted")?;
    make_each(
        rt,
        [
            TankDesign {
                standby: -1.0,
                ..two
            },
            TankDesign {
                initial: f64::NAN,
                ..two
            },
            TankDesign {
                ambient: f64::NEG_INFINITY,
                ..two
            },
            TankDesign {
                standby: -0.0,
                ..two
            },
        ],
    )
}

fn make_heaters(rt: &impl Print) -> io::Result<()> {
    println!(rt;
        "# 5: rated power, position, thermostat position, just above 1 too; -0 and 1 are accepted"
    )?;
    for h in [
        tanks::heater(-1.0, 0.0),
        tanks::heater(160.0, -0.5),
        tanks::heater(160.0, JUST_ABOVE_ONE),
        tanks::heater_with(160.0, 0.0, JUST_ABOVE_ONE),
        tanks::heater(-0.0, -0.0),
        tanks::heater_with(160.0, 1.0, 1.0),
    ] {
        answers::make(rt, tanks::with_heaters(tanks::two_layers(), &[h]))?;
    }
    Ok(())
}

pub fn make(rt: &impl Print) -> io::Result<()> {
    println!(rt; "# 1: 0, 1, 32 and 33 layers")?;
    for (layers, volume) in [(0, 16.0), (1, 16.0), (32, 512.0), (33, 528.0)] {
        answers::make(rt, tanks::plain(layers, volume, 60.0))?;
    }
    println!(rt; "# 2: 0, 8 and 9 heaters")?;
    for heaters in [0, 8, 9] {
        answers::make(
            rt,
            tanks::with_alike(tanks::two_layers(), heaters, tanks::heater(160.0, 0.0)),
        )?;
    }
    make_numbers(rt)?;
    make_heaters(rt)
}

// A step on a tank with two layers and no heaters, whose stored numbers were put wrong.
fn stored(rt: &impl Print, wrong: StorageTank) -> io::Result<()> {
    answers::step(
        rt,
        wrong,
        Report::default(),
        tanks::heats(0, SetPoints::Neither),
    )?;
    Ok(())
}

// 1 to 5 for the tank of a step.
fn step_tank(rt: &impl Print) -> io::Result<()> {
    let t = answers::make(rt, tanks::two_layers())?;
    println!(rt; "# 1 to 5 of a stored tank")?;
    stored(rt, StorageTank { layers: 33, ..t })?;
    stored(rt, StorageTank { heaters: 9, ..t })?;
    stored(rt, StorageTank { volume: 0.0, ..t })?;
    let mut hot = t;
    hot.temps[1] = f64::INFINITY;
    stored(rt, hot)?;
    let mut heated = t;
    heated.heaters = 1;
    heated.fitted[0] = tanks::heater(160.0, JUST_ABOVE_ONE);
    stored(rt, heated)
}

// A step on two layers at 40 and no heaters.
fn on_plain(rt: &impl Print, a: Step) -> io::Result<()> {
    answers::first_step(rt, tanks::two_layers(), a)?;
    Ok(())
}

// A step on two layers at 40 and one heater, of so many set-point entries.
fn heated(rt: &impl Print, n: usize, points: SetPoints) -> io::Result<()> {
    answers::first_step(rt, tanks::one_heater(), tanks::heats(n, points))?;
    Ok(())
}

fn step_arguments(rt: &impl Print) -> io::Result<()> {
    println!(rt; "# 6: 65 events; a set-point entry too many, and one too few")?;
    on_plain(rt, tanks::draws(12.0, 65, 0.0))?;
    on_plain(rt, tanks::heats(1, SetPoints::Neither))?;
    heated(rt, 0, SetPoints::Neither)?;
    println!(rt; "# 7: the feed, and volumes")?;
    on_plain(rt, tanks::draws(f64::NAN, 1, 16.0))?;
    on_plain(rt, tanks::draws(12.0, 1, -1.0))?;
    on_plain(rt, tanks::draws(12.0, 1, f64::INFINITY))
}

fn step_set_points(rt: &impl Print) -> io::Result<()> {
    println!(rt;
        "# 8, 13 and 12: the lower set point alone, above the upper, and one that is not finite"
    )?;
    heated(rt, 1, SetPoints::Lower(50.0))?;
    heated(rt, 1, SetPoints::Both(60.0, 50.0))?;
    heated(rt, 1, SetPoints::Upper(f64::INFINITY))
}

// A step on four layers at 60 of a density.
fn on_four(rt: &impl Print, rho: f64, a: Step) -> io::Result<()> {
    let m = TankDesign {
        rho,
        ..tanks::plain(4, 64.0, 60.0)
    };
    answers::first_step(rt, m, a)?;
    Ok(())
}

pub fn step(rt: &impl Print) -> io::Result<()> {
    step_tank(rt)?;
    step_arguments(rt)?;
    step_set_points(rt)?;
    println!(rt; "# 9: a mixing that does not come to order")?;
    on_four(rt, 1.0, tanks::draws(1e307, 1, 32.0))?;
    println!(rt; "# 10: an energy too large")?;
    on_four(rt, 1e307, tanks::draws(12.0, 1, 16.0))
}

// A step, one that is refused, and the first again.
pub fn between(rt: &impl Print) -> io::Result<()> {
    println!(rt; "# A refused step between two accepted ones leaves tank and report as they were")?;
    let good = tanks::heats(1, SetPoints::Both(50.0, 60.0));
    let first = answers::first_step(rt, tanks::one_heater(), good)?;
    let second = answers::next_step(rt, first, tanks::heats(1, SetPoints::Lower(50.0)))?;
    answers::next_step(rt, second, good)?;
    Ok(())
}
