// The refusals of documents 01 and 02, as the error of every call that refuses, and the number of each.
#![tactic(auto)]

ghost use Rattle.std.specs.Prelude.{◌≡◌, cond, Ok, Err};
ghost use Rattle.refusals.specs.Refusals.{number_of, number_in};

use thiserror::Error;

#[derive(Clone, Copy, Debug, PartialEq, Eq, Hash, Error)]
pub enum Refusal {
    #[error("the layers are none, or too many")]
    LayerCount = 1,
    #[error("too many heaters")]
    HeaterCount = 2,
    #[error("a volume, density, specific heat or step length is not finite and above zero")]
    NotAboveZero = 3,
    #[error("a temperature is not finite, or the standby loss is not a number of at least zero")]
    Temperature = 4,
    #[error("a rated power or a position is out of range")]
    Heater = 5,
    #[error("too many draw events, or not one set-point entry for each heater")]
    StepCounts = 6,
    #[error("the feed temperature or a draw's volume is out of range")]
    Draw = 7,
    #[error("a lower set point without an upper one")]
    LowerAlone = 8,
    #[error("the layers do not come to order")]
    OutOfOrder = 9,
    #[error("a figure is not finite")]
    NotFinite = 10,
    #[error("a job record is not well formed, or misplaced")]
    Record = 11,
    #[error("a set point is not finite")]
    SetPointNotFinite = 12,
    #[error("a lower set point above the upper one")]
    LowerAboveUpper = 13,
}

impl Refusal {
    // The number that 01 or 02 gives it.
    pub fn number(self) -> u8
        ensures { result ≡ number_of self }
    {
        self as u8
    }
}

// The number of an answer: 0 where the call is accepted.
pub fn number_in<T>(answer: &Result<T, Refusal>) -> u8
    ensures { result ≡ number_in answer.now }
{
    match answer {
        Ok(_) => 0,
        Err(refusal) => refusal.number(),
    }
}

// Passes, or is refused so.
pub fn unless(passes: bool, refusal: Refusal) -> Result<(), Refusal>
    ensures outcome { result ≡ cond passes (Ok tt) (Err refusal) }
    ensures number { number_in result ≡ cond passes 0 (number_of refusal) }
{
    if passes { Ok(()) } else { Err(refusal) }
}
