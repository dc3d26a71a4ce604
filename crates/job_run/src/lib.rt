// A job, one record after the other: what a record does to the tank, and the lines that it prints.
#![tactic(auto)]

pub mod lines;
pub mod record;
pub mod start;

ghost use Rattle.storage_tank.specs.Calls.{stepped};
ghost use Rattle.job_model.specs.Job.{StepText, StepPrinted};

use job_model::PrintedStep;
use storage_tank::{Report, StorageTank};
use tank_model::Step;

// What is printed of a step: its figures, or its history.
pub trait StepPrinter {
    // By the step's index and what it finds.
    ghost text: { StepText };

    // Steps a tank, for any numbers, and puts the step's lines into the lent buffer.
    fn print_step(
        buf: &mut [u8],
        index: usize,
        tank: StorageTank,
        report: Report,
        step: Step,
    ) -> PrintedStep
        ensures { StepPrinted (text index tank report step) (stepped tank report step) buf.old buf.new result };
}
