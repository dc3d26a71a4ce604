// What a job is, one record after the other: where it stands, what a record does to its tank, and the text that it prints. The crate `job_run` works them.
#![tactic(auto)]

ghost use Rattle.std.specs.Prelude.{◌≡◌};
ghost use Rattle.job_model.specs.Job.{came_before};

use job_records::Before;
use storage_tank::{Report, Stepped, StorageTank};
use tank_model::TankDesign;

// Where a job stands: how many bytes of the input came before those that are lent, and the next record's start among these; whether the job has ended, whether
// a tank came, how many steps came, the tank's record and heaters as given, the tank, and the report of its last accepted step.
// Kept: `ended` and `has_tank` beside values that hold in both cases, zeros before a tank: Options would add cases that the reader has ruled out.
#[derive(Clone, Copy)]
pub struct Job {
    pub before: usize,
    pub at: usize,
    pub ended: bool,
    pub has_tank: bool,
    pub steps: usize,
    pub design: TankDesign,
    pub tank: StorageTank,
    pub report: Report,
}

impl Job {
    // What came before the next record.
    pub fn came_before(&self) -> Before
        ensures { result ≡ came_before self.now }
    {
        Before {
            tank: self.has_tank,
            heaters: self.design.heaters,
            step: self.steps != 0,
        }
    }
}

// A job after a record, and the length of the lines that the record printed.
// Kept: the length of the whole text, which may be more than the buffer holds: a slice of the buffer could not tell it.
#[derive(Clone, Copy)]
pub struct Printed {
    pub job: Job,
    pub length: usize,
}

// What a step answers, and the length of the lines that were printed of it.
// Kept: that length, as in `Printed`: a slice of the buffer could not tell more than what fits there.
#[derive(Clone, Copy)]
pub struct PrintedStep {
    pub stepped: Stepped,
    pub length: usize,
}

// A job after its first records, and how many bytes of their lines were taken: all.
#[derive(Clone, Copy)]
pub struct Ran {
    pub job: Job,
    pub taken: usize,
}

// A write failed: the job before the record whose lines were cut, and how many bytes of all the lines were taken.
#[derive(Clone, Copy)]
pub struct CutShort {
    pub ran: Ran,
}
