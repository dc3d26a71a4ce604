// The storage tank: what the calls make and step hand back.
#![tactic(auto)]

ghost use Rattle.std.specs.Prelude.{◌≡◌};
ghost use Rattle.storage_tank.specs.Tank.{fixed_in};
ghost use Rattle.storage_tank.specs.Calls.{report_by};

pub mod hot_water;
pub mod make;

use cylinder::Cylinder;
use mixing::limits::MAX_LAYERS;
use refusals::Refusal;
use step_work::work::StepFigures;
use tank_model::{Heater, HeaterLine, TurnNotes};
use working_order::MAX_HEATERS;

// The tank: its fixed numbers, its layers' temperatures, the bottom first, its heaters as given, and their flags.
// A count may be any number; what is past it in an array is not looked at.
// Kept: counts beside arrays, and `flags` apart from `fitted`: 01 prescribes these counts, arrays of the most there can be, and the flags as one of their own.
#[derive(Clone, Copy, Default)]
pub struct StorageTank {
    pub layers: usize,
    pub volume: f64,
    pub standby: f64,
    pub rho: f64,
    pub cp: f64,
    pub ambient: f64,
    pub timestep: f64,
    pub temps: [f64; MAX_LAYERS],
    pub heaters: usize,
    pub fitted: [Heater; MAX_HEATERS],
    pub flags: [bool; MAX_HEATERS],
}

impl StorageTank {
    // The numbers of its cylinder.
    // Kept: put together at each call, since 01 prescribes these fields in the tank itself.
    pub fn cylinder(&self) -> Cylinder
        ensures { result ≡ (fixed_in self.now).cylinder }
    {
        Cylinder {
            layers: self.layers,
            volume: self.volume,
            standby: self.standby,
            rho: self.rho,
            cp: self.cp,
            ambient: self.ambient,
            timestep: self.timestep,
        }
    }
}

// What a step reports: energy withdrawn (kWh), volume used (litres), average draw-off temperature, recoverable losses (kWh), and each heater's line, as given.
#[derive(Clone, Copy, Default)]
pub struct Report {
    pub energy: f64,
    pub used: f64,
    pub average: f64,
    pub recoverable: f64,
    pub lines: [HeaterLine; MAX_HEATERS],
}

impl Report {
    // Of an accepted step, by what it came to and the lines that its turns noted.
    pub fn of(w: StepFigures, lines: [HeaterLine; MAX_HEATERS]) -> Report
        ensures { result ≡ report_by w lines }
    {
        Report {
            energy: w.totals.energy,
            used: w.totals.used,
            average: w.average,
            recoverable: w.recoverable,
            lines,
        }
    }
}

// What make answers: accepted with the tank, or 01's refusal with a tank of no layers, no heaters and zeros.
// Kept: the outcome beside the tank, as 01 hands a tank back in both cases.
#[derive(Clone, Copy)]
pub struct Made {
    pub outcome: Result<(), Refusal>,
    pub tank: StorageTank,
}

// What a step answers: accepted with the stepped tank and its report, or 01's refusal with the tank and the report handed in.
// Kept: the outcome beside both, as 01 hands them back in both cases.
#[derive(Clone, Copy)]
pub struct Stepped {
    pub outcome: Result<(), Refusal>,
    pub tank: StorageTank,
    pub report: Report,
}

// What a step answers, and what its turns noted, refused or not: zeros for the heaters that had none.
#[derive(Clone, Copy)]
pub struct NotedStep {
    pub stepped: Stepped,
    pub notes: TurnNotes,
}
