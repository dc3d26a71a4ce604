// The figures of heaters.
use crate::{answers, tanks};
use set_points::SetPoints;
use std::io;
use tank_model::TankDesign;

fn one_step(rt: &impl Print, points: SetPoints) -> io::Result<()> {
    answers::first_step(rt, tanks::one_heater(), tanks::heats(1, points))?;
    Ok(())
}

fn four_steps(rt: &impl Print, points: SetPoints) -> io::Result<()> {
    let a = tanks::heats(1, points);
    let mut s = answers::first_step(rt, tanks::one_heater(), a)?;
    for _ in 1..4 {
        s = answers::next_step(rt, s, a)?;
    }
    Ok(())
}

// Two heaters of 3 kW, unset, on two layers at 36 that lose heat.
fn unset(rt: &impl Print, first: f64, second: f64) -> io::Result<()> {
    let m = TankDesign {
        standby: 27.0,
        timestep: 0.125,
        ..tanks::plain(2, 32.0, 36.0)
    };
    answers::first_step(
        rt,
        tanks::with_heaters(m, &[tanks::heater(3.0, first), tanks::heater(3.0, second)]),
        tanks::heats(2, SetPoints::Neither),
    )?;
    Ok(())
}

// Layers at 40, and n heaters alike at a position, with set points 50 and 60.
fn alike(
    rt: &impl Print,
    layers: usize,
    volume: f64,
    n: usize,
    rated: f64,
    position: f64,
) -> io::Result<()> {
    answers::first_step(
        rt,
        tanks::with_alike(
            tanks::plain(layers, volume, 40.0),
            n,
            tanks::heater(rated, position),
        ),
        tanks::heats(n, SetPoints::Both(50.0, 60.0)),
    )?;
    Ok(())
}

pub fn figures(rt: &impl Print) -> io::Result<()> {
    println!(rt; "# Two layers at 40, 160 kW at position 0, set points 50 and 60, four steps")?;
    four_steps(rt, SetPoints::Both(50.0, 60.0))?;
    println!(rt; "# Set points 41 and 42")?;
    one_step(rt, SetPoints::Both(41.0, 42.0))?;
    println!(rt; "# Two layers at 36, standby 27, step 0.125, two heaters unset")?;
    unset(rt, 0.0, 0.0)?;
    println!(rt; "# Position 0.5 of 4: layer 2 is heated")?;
    alike(rt, 4, 64.0, 1, 160.0, 0.5)?;
    println!(rt; "# Position 1 of 4: layer 3 is heated")?;
    alike(rt, 4, 64.0, 1, 16.0, 1.0)?;
    println!(rt; "# Lower equal to upper")?;
    one_step(rt, SetPoints::Both(50.0, 50.0))
}

pub fn edges(rt: &impl Print) -> io::Result<()> {
    println!(rt; "# Two heaters unset, the upper one given first: the lower one is worked first")?;
    unset(rt, 0.5, 0.0)?;
    println!(rt; "# Eight heaters of 10 kW")?;
    alike(rt, 2, 32.0, 8, 10.0, 0.0)?;
    println!(rt; "# The upper set point alone: a flag that is off stays off")?;
    one_step(rt, SetPoints::Upper(60.0))
}
