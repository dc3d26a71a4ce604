// The figures that no symmetry hides: density 4, specific heat 0.5, and layers, heaters and steps that differ. They are theorems too (`Asymmetric` of
// figures_table), and the Rust gives the same numbers (compare/asymmetric).
use crate::{answers, tanks};
use set_points::SetPoints;
use std::io;
use storage_tank::Stepped;
use tank_model::{Heater, Step, TankDesign};

fn dense(layers: usize, volume: f64, initial: f64, timestep: f64) -> TankDesign {
    TankDesign {
        rho: 4.0,
        cp: 0.5,
        timestep,
        ..tanks::plain(layers, volume, initial)
    }
}

fn draws(rt: &impl Print) -> io::Result<()> {
    println!(rt;
        "# Two draws in a step, a draw that spans layers, and one of more than the tank holds"
    )?;
    let mut a = tanks::draws(10.0, 2, 12.0);
    a.volumes[1] = 20.0;
    let first = answers::first_step(rt, dense(4, 32.0, 50.0, 1.0), a)?;
    answers::next_step(rt, first, tanks::draws(10.0, 1, 40.0))?;
    println!(rt; "# A feed warmer than the tank: the event ends in a mixing")?;
    answers::first_step(rt, dense(4, 32.0, 20.0, 1.0), tanks::draws(60.0, 1, 12.0))?;
    Ok(())
}

// So many draws of one volume, and set points for the heaters as given.
fn drawing(feed: f64, events: usize, volume: f64, points: &[SetPoints]) -> Step {
    tanks::with_points(tanks::draws(feed, events, volume), points)
}

// No events.
fn heating(points: &[SetPoints]) -> Step {
    drawing(10.0, 0, 0.0, points)
}

fn three_heaters(rt: &impl Print) -> io::Result<()> {
    println!(rt;
        "# Three heaters given out of order, two thermostats elsewhere, losses charged once and a layer limited"
    )?;
    let m = TankDesign {
        standby: 27.0,
        ambient: 30.0,
        ..dense(4, 200.0, 40.0, 0.5)
    };
    answers::first_step(
        rt,
        tanks::with_heaters(
            m,
            &[
                tanks::heater(800.0, 0.75),
                tanks::heater_with(4800.0, 0.0, 0.5),
                tanks::heater_with(2400.0, 0.25, 0.75),
            ],
        ),
        heating(&[
            SetPoints::Both(48.0, 60.0),
            SetPoints::Both(40.0, 60.0),
            SetPoints::Both(45.0, 47.0),
        ]),
    )?;
    Ok(())
}

fn thermostats(rt: &impl Print) -> io::Result<()> {
    println!(rt;
        "# A draw, then three heaters given out of order that switch by thermostats in other layers"
    )?;
    answers::first_step(
        rt,
        tanks::with_heaters(
            dense(4, 32.0, 50.0, 0.5),
            &[
                tanks::heater_with(128.0, 0.5, 0.0),
                tanks::heater_with(64.0, 0.0, 0.25),
                tanks::heater_with(32.0, 0.75, 0.25),
            ],
        ),
        drawing(
            10.0,
            1,
            12.0,
            &[
                SetPoints::Both(20.0, 51.0),
                SetPoints::Both(20.0, 60.0),
                SetPoints::Both(30.0, 70.0),
            ],
        ),
    )?;
    Ok(())
}

// A heater that comes on, is kept on by an upper set point alone, and goes off and on as its set points go and come.
fn set_points(rt: &impl Print) -> io::Result<()> {
    println!(rt; "# Set points that come and go")?;
    let mut s = answers::first_step(
        rt,
        tanks::with_heaters(
            dense(2, 32.0, 40.0, 0.5),
            &[tanks::heater_with(128.0, 0.0, 0.5)],
        ),
        heating(&[SetPoints::Both(40.0, 60.0)]),
    )?;
    for points in [
        SetPoints::Upper(60.0),
        SetPoints::Neither,
        SetPoints::Upper(60.0),
        SetPoints::Both(41.0, 60.0),
        SetPoints::Both(42.0, 43.0),
    ] {
        s = answers::next_step(rt, s, heating(&[points]))?;
    }
    Ok(())
}

// One step of a tank with one heater.
fn one_step(rt: &impl Print, m: TankDesign, h: Heater, points: SetPoints) -> io::Result<()> {
    answers::first_step(rt, tanks::with_heaters(m, &[h]), heating(&[points]))?;
    Ok(())
}

fn adjusted_alone(rt: &impl Print) -> io::Result<()> {
    println!(rt; "# An adjusted input wide-close to 0 is reported, and nothing is supplied")?;
    one_step(
        rt,
        dense(1, 16.0, 40.0, 0.5),
        tanks::heater(2.9103830456733704e-11, 0.0),
        SetPoints::Both(50.0, 60.0),
    )
}

fn colder_than_the_room(rt: &impl Print) -> io::Result<()> {
    println!(rt; "# A tank colder than the room loses nothing")?;
    let m = TankDesign {
        standby: 27.0,
        ..dense(2, 32.0, 10.0, 0.5)
    };
    one_step(rt, m, tanks::heater(64.0, 0.0), SetPoints::Neither)
}

// Refused for 6, 7 and 8.
fn checks(rt: &impl Print, first: Stepped) -> io::Result<Stepped> {
    let upper = [SetPoints::Upper(70.0)];
    let many = answers::next_step(rt, first, drawing(20.0, 65, 1.0, &upper))?;
    let mut a = drawing(20.0, 2, 16.0, &upper);
    a.volumes[1] = -1.0;
    let negative = answers::next_step(rt, many, a)?;
    answers::next_step(
        rt,
        negative,
        drawing(20.0, 1, 16.0, &[SetPoints::Lower(50.0)]),
    )
}

// Refused for 9 and 10.
fn work(rt: &impl Print, before: Stepped) -> io::Result<Stepped> {
    let upper = [SetPoints::Upper(70.0)];
    let unordered = answers::next_step(rt, before, drawing(1e307, 1, 32.0, &upper))?;
    answers::next_step(rt, unordered, drawing(-1e307, 1, 16.0, &upper))
}

fn refused(rt: &impl Print) -> io::Result<()> {
    println!(rt; "# Steps refused for 6 to 10 between two accepted ones")?;
    let first = answers::first_step(
        rt,
        tanks::with_heaters(dense(2, 32.0, 60.0, 0.5), &[tanks::heater(640.0, 0.0)]),
        drawing(20.0, 1, 16.0, &[SetPoints::Both(50.0, 70.0)]),
    )?;
    answers::next_step(
        rt,
        work(rt, checks(rt, first)?)?,
        drawing(20.0, 1, 8.0, &[SetPoints::Upper(70.0)]),
    )?;
    Ok(())
}

pub fn figures(rt: &impl Print) -> io::Result<()> {
    draws(rt)?;
    three_heaters(rt)?;
    thermostats(rt)?;
    set_points(rt)?;
    adjusted_alone(rt)?;
    colder_than_the_room(rt)?;
    refused(rt)
}
