// Reads a job of any length from standard input and prints the history of its heaters' turns, the lines of a record together. A read or a write that fails
// ends the program, and standard error says why: then standard output has a beginning of the lines.
#![tactic(auto)]

use input_window::window::MAX_WINDOW;
use job_history::record::History;
use job_windows::input::run_input;

fn main(rt: HostRuntime) {
    run_input::<History>(&rt, b"history", [0; MAX_WINDOW]);
}
