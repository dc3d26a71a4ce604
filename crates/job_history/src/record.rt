// What is printed of a step in a job's history: the step's turns.
ghost use Rattle.job_history.specs.History.{step_history};

use crate::facts::told_step;
use crate::lines::history_lines;
use job_model::PrintedStep;
use job_run::StepPrinter;
use refusals::number_in;
use storage_tank::{Report, StorageTank};
use tank_model::Step;

// A step's history; the job goes on as it does when it prints its figures.
pub struct History;

impl StepPrinter for History {
    ghost text = { step_history };

    fn print_step(
        buf: &mut [u8],
        index: usize,
        tank: StorageTank,
        report: Report,
        step: Step,
    ) -> PrintedStep {
        let told = told_step(tank, report, step);
        let stepped = told.stepped;
        let length = history_lines(buf, index, number_in(&stepped.outcome), told.turns);
        PrintedStep { stepped, length }
    }
}
