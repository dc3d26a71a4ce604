// Room for a record in a window, and what is left of the window moved down for the next.
ghost use Rattle.std.specs.Prelude.{◌≡◌, ◌+◌, ◌≤◌, ◌<◌, length};
ghost use Rattle.job_model.specs.Windows.{moved_up};
ghost use Rattle.input_window.specs.Window.{max_window, goes_on, Left};

use crate::Next;
use job_model::Job;
use working_order::MAX_HEATERS;

pub const MAX_WINDOW: usize = 1048576;

// The longest record: length and kind, a step's feed and its count of volumes, 65,535 of these, and eight set-point entries.
pub const MAX_RECORD: usize = 16 + 8 * 65535 + 17 * MAX_HEATERS;

// Whether the job goes on with a record that can be read here: nothing follows the window, or no record reaches past it.
pub fn goes_on(size: usize, last: bool, ended: bool, at: usize) -> bool
    requires { (at ≤ size) × (size ≤ max_window) }
    ensures { result ≡ goes_on size last ended at }
{
    !ended && (last || at + MAX_RECORD <= size)
}

// The next window begins at the next record.
fn moved_up(job: Job) -> Job
    requires { job.before + job.at < 9223372036854775808 }
    ensures { result ≡ moved_up job }
{
    Job {
        before: job.before + job.at,
        at: 0,
        ..job
    }
}

// What a job leaves of a window that ends at `end`: the bytes from its next record on, which begin the next window.
pub fn next_window(buf: &mut [u8], job: Job, end: usize) -> Next
    requires { (job.at ≤ end) × (end ≤ length buf.old) × (job.before + job.at < 9223372036854775808) }
    ensures { Left buf.old buf.new job end result }
{
    buf.copy_within(job.at..end, 0);
    Next {
        job: moved_up(job),
        held: end - job.at,
    }
}
