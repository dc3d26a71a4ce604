// A record's lines handed on.
ghost use Rattle.job_model.specs.Job.{Countable, run_record};
ghost use Rattle.job_windows.specs.Lines.{Sends};

use job_model::Job;
use job_run::StepPrinter;
use job_run::record::next_record;
use std::time::Clock;
use streams::Broken;

// The job after a record, and what became of its lines: all of their bytes were taken, or those before a write that failed.
#[derive(Clone, Copy)]
pub struct Told {
    pub job: Job,
    pub sent: Result<usize, Broken>,
}

// The next record: its lines handed on, and the job after it.
pub fn print_lines<P: StepPrinter>(
    rt: &(impl Print + Eprint + Clock),
    program: &[u8],
    bytes: &[u8],
    job: Job,
) -> Told
    requires { Countable job }
    ensures { Sends (run_record P.text bytes.now job) result }
{
    let mut lines = [0; 4096];
    let printed = next_record::<P>(&mut lines, bytes, job);
    Told {
        job: printed.job,
        sent: streams::send(rt, program, &lines[..printed.length]),
    }
}
