// The lines of a step.
ghost use Rattle.job_lines.specs.Put.{PutWhole};
ghost use Rattle.job_model.specs.StepLines.{step_lines};
ghost use Rattle.job_model.specs.Job.{step_figures};

use crate::StepPrinter;
use job_lines::lines::{accepted_lines, refused_lines};
use job_model::PrintedStep;
use storage_tank::{Report, Stepped, StorageTank};
use tank_model::{Step, order_of_work};
use working_order::MAX_HEATERS;

// A step's figures.
pub struct Figures;

impl StepPrinter for Figures {
    ghost text = { step_figures };

    fn print_step(
        buf: &mut [u8],
        index: usize,
        tank: StorageTank,
        report: Report,
        step: Step,
    ) -> PrintedStep {
        let stepped = tank.demand_hot_water(report, step);
        let length = step_lines(buf, index, stepped);
        PrintedStep { stepped, length }
    }
}

// A step's lines, by its outcome. Its heaters are printed in working order.
pub fn step_lines(buf: &mut [u8], index: usize, s: Stepped) -> usize
    ensures { PutWhole (step_lines index s) buf.old buf.new result }
{
    let t = s.tank;
    if let Err(refusal) = s.outcome {
        return refused_lines(buf, index, refusal, t.layers, &t.temps);
    }
    let heaters = t.heaters.min(MAX_HEATERS);
    let order = order_of_work(&t.fitted[..heaters]);
    accepted_lines(buf, index, &s.report, t.layers, &t.temps, &order[..heaters])
}
