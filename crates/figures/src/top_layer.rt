// Heaters and thermostats at 1, which is the top layer (02, R-2). They are theorems too (`TopLayer` of figures_table), and the Rust gives the same lines where
// it is given the largest double below 1 for 1 (compare/asymmetric).
use crate::{answers, tanks};
use set_points::SetPoints;
use std::io;

// The largest double below 1.
const JUST_BELOW_ONE: f64 = 0.9999999999999999;

fn one_layer(rt: &impl Print) -> io::Result<()> {
    println!(rt; "# One layer, a heater and its thermostat at 1")?;
    answers::first_step(
        rt,
        tanks::with_heaters(
            tanks::plain(1, 16.0, 40.0),
            &[tanks::heater_with(160.0, 1.0, 1.0)],
        ),
        tanks::heats(1, SetPoints::Both(50.0, 60.0)),
    )?;
    Ok(())
}

// The thermostat sees the warm top layer in the first step, and cold water in the second.
fn thermostat(rt: &impl Print) -> io::Result<()> {
    println!(rt; "# A heater at the bottom with its thermostat at 1, and two draws")?;
    let a = tanks::with_points(tanks::draws(12.0, 1, 16.0), &[SetPoints::Both(50.0, 70.0)]);
    let first = answers::first_step(
        rt,
        tanks::with_heaters(
            tanks::plain(2, 32.0, 60.0),
            &[tanks::heater_with(160.0, 0.0, 1.0)],
        ),
        a,
    )?;
    answers::next_step(rt, first, a)?;
    Ok(())
}

fn order(rt: &impl Print) -> io::Result<()> {
    println!(rt; "# A heater at 1, given first, works after one just below it")?;
    answers::first_step(
        rt,
        tanks::with_heaters(
            tanks::plain(1, 16.0, 40.0),
            &[
                tanks::heater(320.0, 1.0),
                tanks::heater(160.0, JUST_BELOW_ONE),
            ],
        ),
        tanks::with_points(
            tanks::draws(12.0, 0, 0.0),
            &[SetPoints::Both(60.0, 90.0), SetPoints::Both(41.0, 55.0)],
        ),
    )?;
    Ok(())
}

pub fn figures(rt: &impl Print) -> io::Result<()> {
    one_layer(rt)?;
    thermostat(rt)?;
    order(rt)
}
