// A first program over the four calls: it makes a tank, steps it, mixes layers and reads a job, and prints what each call answers. To begin a program of your
// own, copy this folder and its line of crates.txt, with a name of your own for first_tank.
// What it must print (`stdout`) is not its own word: the tank and the mixing are figures of document 01 (docs/MODEL.md), and the job (`stdin`) is the second
// example of docs/JOB_FORMAT.md. day/tests/test_documents.py works every line out again by compare/model.py.
#![tactic(auto)]

mod print;

use draw_events::event::MAX_EVENTS;
use job_reader::reader::read_at;
use job_records::Before;
use set_points::SetPoints;
use std::io;
use storage_tank::{Report, StorageTank};
use tank_model::{Heater, Step, TankDesign};
use working_order::MAX_HEATERS;

// Two layers of 16 litres at 40 degrees, and a heater of 160 kW at the bottom.
fn make(rt: &impl Print) -> io::Result<StorageTank> {
    let heater = Heater {
        rated: 160.0,
        position: 0.0,
        thermostat: None,
    };
    let made = StorageTank::new(TankDesign {
        layers: 2,
        volume: 32.0,
        standby: 0.0,
        initial: 40.0,
        rho: 1.0,
        cp: 1.0,
        ambient: 20.0,
        timestep: 1.0,
        heaters: 1,
        fitted: [heater; MAX_HEATERS],
    });
    print::made(rt, &made)?;
    Ok(made.tank)
}

// An hour, twice, with set points of 50 and 60 degrees; then one whose feed probe has dropped out.
fn step(rt: &impl Print, tank: StorageTank) -> io::Result<()> {
    let hour = Step {
        feed: 12.0,
        events: 0,
        volumes: [0.0; MAX_EVENTS],
        entries: 1,
        settings: [SetPoints::Both(50.0, 60.0); MAX_HEATERS],
    };
    let dropped = Step {
        feed: f64::NAN,
        ..hour
    };
    let report = Report::default(); // before the first step: any will do
    let first = tank.demand_hot_water(report, hour); // layers 45, 45; its heater is on and supplied 160
    let second = first.tank.demand_hot_water(first.report, hour); // layers 50, 50
    let third = second.tank.demand_hot_water(second.report, dropped); // Err(Refusal::Draw), which is 7; all as in `second`
    print::stepped(rt, &first)?;
    print::stepped(rt, &second)?;
    print::stepped(rt, &third)
}

fn mix(rt: &impl Print) -> io::Result<()> {
    let mut layers = [50.0, 40.0];
    let answer = rearrange::mix::mix(&mut layers, 16.0); // Ok(1): one round, and layers 45, 45
    print::mixed(rt, answer, &layers)
}

fn read(rt: &impl Print, bytes: &[u8]) -> io::Result<()> {
    // the position, then what came before it: a tank or not, how many heaters, a step or not
    let mut before = Before::default();
    let tank = read_at(bytes, 0, before); // its content is Ok(Record::Tank(..)); tank.next is 64
    before.tank = true;
    let heater = read_at(bytes, tank.next, before); // Ok(Record::Heater(..)); heater.next is 95
    before.heaters = 1;
    let step = read_at(bytes, heater.next, before); // Ok(Record::Step(..)); step.next is 136, the end
    before.step = true;
    let none = read_at(bytes, step.next, before); // Err(Refusal::Record); none.next is 136 again
    for reading in [tank, heater, step, none] {
        print::record(rt, &reading)?;
    }
    Ok(())
}

fn main(rt: HostRuntime) -> io::Result<()> {
    let tank = make(&rt)?;
    step(&rt, tank)?;
    mix(&rt)?;
    let mut buf = [0; 4096];
    let n = streams::fill(&rt, b"first_tank", &mut buf).unwrap_or_else(|broken| broken.moved);
    read(&rt, &buf[..n])
}
