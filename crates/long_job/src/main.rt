// Reads a job of any length from standard input and prints its lines, as `job` does for the first 65,536 bytes. A read or a write that fails ends the
// program, and standard error says why: then standard output has a beginning of the lines.
#![tactic(auto)]

use input_window::window::MAX_WINDOW;
use job_run::lines::Figures;
use job_windows::input::run_input;

fn main(rt: HostRuntime) {
    run_input::<Figures>(&rt, b"long_job", [0; MAX_WINDOW]);
}
