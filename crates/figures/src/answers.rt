// Makes and steps tanks, and prints each answer with all its numbers: the four totals, the layers, and each heater's line, as given.
use crate::print::{Bits, Row};
use refusals::number_in;
use std::io;
use storage_tank::{Report, Stepped, StorageTank};
use tank_model::{Step, TankDesign};

// The layers: none of a tank that counts more than it has places.
fn layers(rt: &impl Print, t: &StorageTank) -> io::Result<()> {
    let shown = t.temps.get(..t.layers).unwrap_or(&[]);
    println!(rt; "layers{}", Row(shown))
}

// `make`, the refusal's number (0 where accepted), how many heaters, and the layers.
pub fn make(rt: &impl Print, m: TankDesign) -> io::Result<StorageTank> {
    let made = StorageTank::new(m);
    let t = made.tank;
    println!(rt; "make {} {}", number_in(&made.outcome), t.heaters)?;
    layers(rt, &t)?;
    Ok(t)
}

// `heater`, the flag in the tank and in the report, adjusted, supplied, losses and rounds; no lines of a tank that counts more heaters than it has places.
fn heaters(rt: &impl Print, t: &StorageTank, r: &Report) -> io::Result<()> {
    let flags = t.flags.get(..t.heaters).unwrap_or(&[]);
    for (flag, line) in flags.iter().zip(&r.lines) {
        println!(rt;
            "heater {} {} {} {} {} {}",
            u8::from(*flag),
            u8::from(line.flag),
            Bits(line.adjusted),
            Bits(line.supplied),
            Bits(line.losses),
            line.rounds
        )?;
    }
    Ok(())
}

// `step`, the refusal's number (0 where accepted), energy withdrawn, volume used, average draw-off temperature and recoverable losses.
pub fn step(rt: &impl Print, t: StorageTank, r: Report, a: Step) -> io::Result<Stepped> {
    let s = t.demand_hot_water(r, a);
    println!(rt;
        "step {} {} {} {} {}",
        number_in(&s.outcome),
        Bits(s.report.energy),
        Bits(s.report.used),
        Bits(s.report.average),
        Bits(s.report.recoverable)
    )?;
    layers(rt, &s.tank)?;
    heaters(rt, &s.tank, &s.report)?;
    Ok(s)
}

// The next step, on the tank and the report that the one before returned.
pub fn next_step(rt: &impl Print, before: Stepped, a: Step) -> io::Result<Stepped> {
    step(rt, before.tank, before.report, a)
}

// A step of a tank just made.
pub fn first_step(rt: &impl Print, m: TankDesign, a: Step) -> io::Result<Stepped> {
    step(rt, make(rt, m)?, Report::default(), a)
}
