// A window of a job's input, which holds a part of it: whether a record can be read there, and what is left of the window for the next one.
#![tactic(auto)]

pub mod window;

use job_model::Job;

// After a window: the job, which stands at the beginning of the next one, and how many of that one's bytes are there already.
#[derive(Clone, Copy)]
pub struct Next {
    pub job: Job,
    pub held: usize,
}
