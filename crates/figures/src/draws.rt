// The figures of draw events.
use crate::{answers, tanks};
use std::io;
use tank_model::TankDesign;

// Layers at 60, and one event.
fn one(rt: &impl Print, layers: usize, volume: f64, feed: f64, wanted: f64) -> io::Result<()> {
    answers::first_step(
        rt,
        tanks::plain(layers, volume, 60.0),
        tanks::draws(feed, 1, wanted),
    )?;
    Ok(())
}

// 01's table, with a layer volume of 16.
pub fn figures(rt: &impl Print) -> io::Result<()> {
    println!(rt; "# Four layers at 60, feed 12, draw 16, 80 and 0")?;
    for wanted in [16.0, 80.0, 0.0] {
        one(rt, 4, 64.0, 12.0, wanted)?;
    }
    println!(rt; "# Two layers at 60, feed 70, draw 16")?;
    one(rt, 2, 32.0, 70.0, 16.0)
}

fn many(rt: &impl Print, n: usize, volume: f64) -> io::Result<()> {
    let m = TankDesign {
        rho: 0.998,
        ..tanks::plain(10, 150.0, 55.0)
    };
    answers::first_step(rt, m, tanks::draws(11.5, n, volume))?;
    Ok(())
}

pub fn edges(rt: &impl Print) -> io::Result<()> {
    println!(rt; "# A draw of -0; a rest, and a draw, below 1e-10")?;
    for wanted in [-0.0, 64.00000000005, 1e-11] {
        one(rt, 4, 64.0, 12.0, wanted)?;
    }
    println!(rt; "# cold(v) is not the feed; a draw of 0 whose volume used is not 0")?;
    one(rt, 3, 9.0, 12.3, 3.0)?;
    one(rt, 11, 25.0, 12.0, 0.0)?;
    println!(rt; "# One layer, and 32")?;
    one(rt, 1, 16.0, 12.0, 16.0)?;
    one(rt, 32, 512.0, 12.0, 16.0)?;
    println!(rt; "# No events, and 64")?;
    many(rt, 0, 2.7)?;
    many(rt, 64, 2.7)
}
