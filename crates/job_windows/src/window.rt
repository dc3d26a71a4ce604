// One window of a job's input: its records run.
ghost use Rattle.job_records.specs.Windows.{is_ready};
ghost use Rattle.job_model.specs.Job.{run_record};
ghost use Rattle.job_model.specs.Windows.{WindowHanded};
ghost use Rattle.job_windows.specs.Lines.{InWindow};

use crate::lines::print_lines;
use input_window::window::goes_on;
use job_model::{CutShort, Job, Ran};
use job_run::StepPrinter;
use std::time::Clock;

// The records of a window, until the job ends, the next one cannot be read here, or a write fails.
pub fn run_window<P: StepPrinter>(
    rt: &(impl Print + Eprint + Clock),
    program: &[u8],
    bytes: &[u8],
    last: bool,
    job: Job,
) -> Result<Ran, CutShort>
    requires { InWindow bytes.now job }
    ensures { WindowHanded (run_record P.text bytes.now) (is_ready bytes.now last) job result }
{
    let mut ran = Ran { job, taken: 0 };
    // Kept: a `while`, which counts no index: it goes on until the job ends, the next record cannot be read here, or a write fails.
    while goes_on(bytes.len(), last, ran.job.ended, ran.job.at) {
        let told = print_lines::<P>(rt, program, bytes, ran.job);
        match told.sent {
            Ok(all) => {
                ran.job = told.job;
                ran.taken += all;
            }
            Err(broken) => {
                ran.taken += broken.moved;
                return Err(CutShort { ran });
            }
        }
    }
    Ok(ran)
}
