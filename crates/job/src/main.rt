// Reads a job of at most 65,536 bytes from standard input and prints its lines, those of a record together. A read or a write that fails ends the program, and
// standard error says why: then standard output has a beginning of the lines, and nothing where it was a read.
#![tactic(auto)]

ghost use Rattle.std.specs.Prelude.{◌≤◌, length};
ghost use Rattle.job_model.specs.Job.{record_run};
ghost use Rattle.job_model.specs.Handed.{Handed};

use job_model::{CutShort, Ran};
use job_run::lines::Figures;
use job_run::start::start;
use job_windows::window::run_window;
use std::time::Clock;

// All records, as those of a window that nothing follows, until the job has ended or a write fails. What a write does cannot be spoken of: the answer says
// where the job stands and what was taken.
fn run(rt: &(impl Print + Eprint + Clock), bytes: &[u8]) -> Result<Ran, CutShort>
    requires { length bytes.now ≤ 65536 }
    ensures { Handed (record_run bytes.now) (length bytes.now) result }
{
    run_window::<Figures>(rt, b"job", bytes, true, start())
}

fn main(rt: HostRuntime) {
    let mut buf = [0; 65536];
    if let Ok(n) = streams::fill(&rt, b"job", &mut buf) {
        let _ = run(&rt, &buf[..n]);
    }
}
