// The mixing figures: `mix`, the refusal's number (0 where accepted), the rounds, then the layers after the call.
ghost use Rattle.std.specs.Prelude.{◌≤◌};

use crate::print::Row;
use std::io;

fn show(rt: &impl Print, layers: &mut [f64], layer_volume: f64) -> io::Result<()> {
    match rearrange::mix::mix(layers, layer_volume) {
        Ok(rounds) => println!(rt; "mix 0 {rounds}{}", Row(layers)),
        Err(refusal) => println!(rt; "mix {} 0{}", refusal.number(), Row(layers)),
    }
}

fn two(rt: &impl Print, bottom: f64, top: f64, layer_volume: f64) -> io::Result<()> {
    show(rt, &mut [bottom, top], layer_volume)
}

// 01's table and traps, with a layer volume of 16.
pub fn figures(rt: &impl Print) -> io::Result<()> {
    println!(rt; "# Mix, with a layer volume of 16")?;
    two(rt, 50.0, 40.0, 16.0)?;
    two(rt, 20.0, 30.0, 16.0)?;
    show(rt, &mut [30.0, 40.0, 5.0], 16.0)?;
    show(rt, &mut [f64::NAN], 16.0)?;
    two(rt, f64::NAN, 20.0, 16.0)?;
    two(rt, 40.0, 40.00000001, 16.0)
}

// The first n of 33 layers, at 33, 32 and so on down to 1.
fn falling(rt: &impl Print, n: usize, layer_volume: f64) -> io::Result<()>
    requires { n ≤ 33 }
{
    let mut layers = [0.0; 33];
    let mut x = 33.0;
    for layer in layers.iter_mut() {
        *layer = x;
        x -= 1.0;
    }
    show(rt, &mut layers[..n], layer_volume)
}

// Layer volumes that refusal 3 stops, and the smallest that it lets pass; then no layers, one, 32 and 33.
pub fn edges(rt: &impl Print) -> io::Result<()> {
    println!(rt; "# Mix: layer volumes, and 0, 1, 32 and 33 layers")?;
    for layer_volume in [0.0, -0.0, -1.0, f64::NAN, f64::INFINITY, 5e-324] {
        two(rt, 50.0, 40.0, layer_volume)?;
    }
    falling(rt, 0, 16.0)?;
    falling(rt, 0, 0.0)?;
    falling(rt, 1, 16.0)?;
    falling(rt, 32, 16.0)?;
    falling(rt, 33, 16.0)?;
    falling(rt, 33, 0.0)
}
