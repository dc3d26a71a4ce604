// Standard input and standard output, carried to their end. A call that moves a part is followed by one for the rest; one that is interrupted, or finds
// nothing to read or no room for now, is tried again; one that fails ends the matter, and standard error says why. What the system does is assumed in one
// place, std's contracts of a read and a write, which say no more than that a call fails or answers a count within what it was handed.
// Kept: the program's name beside the handle in each call: the bounds on the handle differ from call to call, and a struct of both would have one.
#![tactic(auto)]

mod input;
mod output;
mod say;
mod wait;

pub use input::fill;
pub use output::{put, send};
use thiserror::Error;

// A read or a write failed, and standard error says why: how many bytes came, or were taken, before it.
#[derive(Clone, Copy, Debug, PartialEq, Eq, Error)]
#[error("a stream failed after {moved} bytes")]
pub struct Broken {
    pub moved: usize,
}
