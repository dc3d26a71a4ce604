// Standard input from its beginning to its end, window by window.
// Kept: `held` beside the buffer, a place in lent bytes: below it stands what a window left, and the next read goes above it.
ghost use Rattle.std.specs.Prelude.{◌≡◌, ◌+◌, ◌≤◌, length, take};
ghost use Rattle.job_model.specs.Job.{run_record};
ghost use Rattle.job_windows.specs.Input.{Open, WindowTaken};
ghost use Rattle.streams.specs.Whole.{moved_in};

use crate::window::run_window;
use input_window::Next;
use input_window::window::{MAX_WINDOW, next_window};
use job_model::Job;
use job_run::StepPrinter;
use std::time::Clock;
use streams::Broken;

// No input has so many windows: each but the last moves on past the 524,144 bytes by which a window is longer than the longest record.
const MAX_WINDOWS: usize = 4294967296;

// Standard input after the bytes held, until the buffer is full or the input ends.
fn fill_after(
    rt: &(impl Input + Eprint + Clock),
    program: &[u8],
    buf: &mut [u8],
    held: usize,
) -> Result<usize, Broken>
    requires { held ≤ length buf.old }
    ensures keeps { take held buf.new ≡ take held buf.old }
    ensures size { length buf.new ≡ length buf.old }
    ensures fits { held + moved_in result ≤ length buf.old }
{
    streams::fill(rt, program, &mut buf[held..])
}

// The window that begins with the bytes held: filled, its records run, and what is left of it moved down; or a read or a write failed.
fn take_window<P: StepPrinter>(
    rt: &(impl Input + Print + Eprint + Clock),
    program: &[u8],
    buf: &mut [u8],
    held: usize,
    job: Job,
) -> Result<Next, Broken>
    requires { Open buf.old held job }
    ensures { WindowTaken (run_record P.text) held buf.old buf.new job result }
{
    let end = held + fill_after(rt, program, buf, held)?;
    let last = end < buf.len();
    match run_window::<P>(rt, program, &buf[..end], last, job) {
        Ok(ran) => Ok(next_window(buf, ran.job, end)),
        Err(cut) => Err(Broken {
            moved: cut.ran.taken,
        }),
    }
}

// A job of any length from standard input: its lines, by what P prints of a step, to standard output. A read or a write that fails ends it, and standard error
// says why. `space` is for the window, whatever is in it: an argument's length is known to the proof without being counted out.
pub fn run_input<P: StepPrinter>(
    rt: &(impl Input + Print + Eprint + Clock),
    program: &[u8],
    mut space: [u8; MAX_WINDOW],
) {
    let mut job = job_run::start::start();
    let mut held = 0;
    // Kept: a counted loop, as one without a count asks for a measure, and no contract says that an input ends.
    for _window in 0..MAX_WINDOWS {
        let Ok(next) = take_window::<P>(rt, program, &mut space, held, job) else {
            return;
        };
        if next.job.ended {
            return;
        }
        job = next.job;
        held = next.held;
    }
    let name = program.escape_ascii();
    let _ = eprintln!(rt; "{name}: standard input: too long");
}
