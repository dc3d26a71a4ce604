// The records of a job: what each kind holds, numbers in its bytes, and the laws of which records are well formed. The crate `job_reader` reads them.
#![tactic(auto)]

pub mod bytes;

ghost use Rattle.std.specs.Prelude.{◌≡◌};
ghost use Rattle.job_records.specs.Records.{design_of};

use refusals::Refusal;
use tank_model::{Heater, Step, TankDesign};
use working_order::MAX_HEATERS;

// A tank's record: the numbers of its design, heaters apart.
// Kept: eight fields of `TankDesign` a second time: a design in their place would have heaters and their count, which no byte of the record says.
#[derive(Clone, Copy, Default)]
pub struct TankRecord {
    pub layers: usize,
    pub volume: f64,
    pub standby: f64,
    pub initial: f64,
    pub rho: f64,
    pub cp: f64,
    pub ambient: f64,
    pub timestep: f64,
}

// With no heaters yet.
impl From<TankRecord> for TankDesign {
    ghost from_gives = { λ t d. d ≡ design_of t };

    fn from(t: TankRecord) -> TankDesign {
        TankDesign {
            layers: t.layers,
            volume: t.volume,
            standby: t.standby,
            initial: t.initial,
            rho: t.rho,
            cp: t.cp,
            ambient: t.ambient,
            timestep: t.timestep,
            heaters: 0,
            fitted: [Heater::default(); MAX_HEATERS],
        }
    }
}

// A record by its kind.
#[derive(Clone, Copy)]
pub enum Record {
    Tank(TankRecord),
    Heater(Heater),
    Step(Step),
}

// What came before a record of a job: a tank or not, how many heaters, a step or not.
#[derive(Clone, Copy, PartialEq, Eq, Default)]
pub struct Before {
    pub tank: bool,
    pub heaters: usize,
    pub step: bool,
}

// What reading answers: the record or its refusal, and the position after it, which is the record's own where it is refused.
#[derive(Clone, Copy)]
pub struct Reading {
    pub content: Result<Record, Refusal>,
    pub next: usize,
}
