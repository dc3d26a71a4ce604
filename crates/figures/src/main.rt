// Runs the figures of 01, and cases at their edges, through make, step and mix, and prints what the calls answer.
// What they must answer (stdout) was written from 01's numbers, or worked by hand where 01 gives none; three draws whose numbers are no short decimals are
// from compare/model.py.
#![tactic(auto)]

mod answers;
mod asymmetric;
mod draws;
mod faults;
mod heaters;
mod mixes;
mod print;
mod refused;
mod tanks;
mod top_layer;

use std::io;

fn main(rt: HostRuntime) -> io::Result<()> {
    mixes::figures(&rt)?;
    mixes::edges(&rt)?;
    draws::figures(&rt)?;
    draws::edges(&rt)?;
    heaters::figures(&rt)?;
    heaters::edges(&rt)?;
    asymmetric::figures(&rt)?;
    faults::figures(&rt)?;
    top_layer::figures(&rt)?;
    refused::make(&rt)?;
    refused::step(&rt)?;
    refused::between(&rt)
}
