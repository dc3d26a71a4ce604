// When a call is tried again, how long it waits first, and how often.
ghost use Rattle.std.specs.Prelude.{◌≡◌, ◌<◌, IsTrue};

use std::io::ErrorKind;
use std::time::{Clock, Duration};
use std::{io, thread};

// How often in a row a call that moves nothing is tried again. Each wait is 10 ms, so a stream that stays empty or full is given up after a day.
pub const TRIES: u32 = 8640000;

const PAUSE_MS: u64 = 10;

// How often in a row a call may still be tried again.
#[derive(Clone, Copy)]
pub struct Tries {
    pub left: u32,
}

impl Tries {
    // After a call that moved something, or none yet.
    pub fn all() -> Tries
        ensures { result.left ≡ TRIES }
    {
        Tries { left: TRIES }
    }

    // Whether the call that has just failed is to be tried again: at once where a signal interrupted it, after a wait where the stream is empty or full for
    // now.
    pub fn again(&mut self, clock: &impl Clock, why: &io::Error) -> bool
        ensures { IsTrue result → self.new.left < self.old.left }
    {
        if self.left == 0 {
            return false;
        }
        self.left -= 1;
        match why.kind() {
            ErrorKind::Interrupted => true,
            ErrorKind::WouldBlock => {
                thread::sleep(clock, Duration::from_millis(PAUSE_MS));
                true
            }
            _ => false,
        }
    }
}
