// Set points that are refused (02, R-1), of one heater and of two, each between two steps that are accepted. They are theorems too (`SetPointFaults` of
// figures_table), and the judge of the Rust gives the same lines (compare/asymmetric).
use crate::{answers, tanks};
use set_points::SetPoints;
use std::io;
use storage_tank::Stepped;
use tank_model::{Step, TankDesign};

// The faults of one heater.
const OF_ONE: [SetPoints; 12] = [
    SetPoints::Both(f64::NAN, 60.0),
    SetPoints::Both(50.0, f64::NAN),
    SetPoints::Both(50.0, f64::INFINITY),
    SetPoints::Both(f64::INFINITY, 60.0),
    SetPoints::Both(f64::NEG_INFINITY, 60.0),
    SetPoints::Both(60.0, f64::NEG_INFINITY),
    SetPoints::Lower(f64::NAN),
    SetPoints::Lower(f64::INFINITY),
    SetPoints::Upper(f64::NAN),
    SetPoints::Upper(f64::INFINITY),
    SetPoints::Lower(50.0),
    SetPoints::Both(60.0, 50.0),
];

// The faults of two heaters: the first as given, and the second.
const OF_TWO: [[SetPoints; 2]; 6] = [
    [SetPoints::Both(60.0, 50.0), SetPoints::Lower(f64::NAN)],
    [SetPoints::Neither, SetPoints::Both(60.0, 50.0)],
    [SetPoints::Lower(50.0), SetPoints::Both(60.0, 50.0)],
    [SetPoints::Upper(f64::INFINITY), SetPoints::Lower(50.0)],
    [SetPoints::Both(50.0, 60.0), SetPoints::Lower(50.0)],
    [SetPoints::Upper(60.0), SetPoints::Both(f64::NAN, 60.0)],
];

// A step with set points for the first heaters; what stands past their number is not looked at.
fn asked(heaters: usize, feed: f64, points: [SetPoints; 2]) -> Step {
    Step {
        feed,
        entries: heaters,
        ..tanks::with_points(tanks::heats(heaters, SetPoints::Neither), &points)
    }
}

// Each fault, in a step of its own.
fn refused(
    rt: &impl Print,
    before: Stepped,
    heaters: usize,
    faults: &[[SetPoints; 2]],
    feed: f64,
) -> io::Result<Stepped> {
    let mut s = before;
    for points in faults {
        s = answers::next_step(rt, s, asked(heaters, feed, *points))?;
    }
    Ok(s)
}

// Equal set points are accepted, before the faults and after them.
fn between(rt: &impl Print, m: TankDesign, faults: &[[SetPoints; 2]]) -> io::Result<()> {
    let good = asked(m.heaters, 12.0, [SetPoints::Both(60.0, 60.0); 2]);
    let first = answers::first_step(rt, m, good)?;
    let cold = refused(rt, first, m.heaters, faults, 12.0)?;
    let unknown = refused(rt, cold, m.heaters, faults, f64::NAN)?;
    answers::next_step(rt, unknown, good)?;
    Ok(())
}

fn one_heater(rt: &impl Print) -> io::Result<()> {
    println!(rt;
        "# Faults of one heater's set points, each with a feed of 12 and of not-a-number"
    )?;
    between(
        rt,
        tanks::one_heater(),
        &OF_ONE.map(|points| [points, SetPoints::Lower(f64::NAN)]),
    )
}

// The first as given sits in the upper layer, and works last.
fn two_heaters(rt: &impl Print) -> io::Result<()> {
    println!(rt; "# Faults of two heaters' set points: the first faulty one as given decides")?;
    between(
        rt,
        tanks::with_heaters(
            tanks::two_layers(),
            &[tanks::heater(160.0, 0.5), tanks::heater(160.0, 0.0)],
        ),
        &OF_TWO,
    )
}

pub fn figures(rt: &impl Print) -> io::Result<()> {
    one_heater(rt)?;
    two_heaters(rt)
}
