// Close, narrow and wide.
ghost use Rattle.std.specs.Prelude.{◌≡◌, true, false};
ghost use Rattle.std.specs.Float.Ieee.{lt, le};
ghost use Rattle.std.specs.Float.Ieee.Scale.{finite};
ghost use Rattle.numeric.specs.Double.{zero_f};
ghost use Rattle.numeric.specs.Close.{magnitude, infinite, within, close, ClosePair, narrow_close, wide_close};

// The narrow tolerance, 2^-52.
pub const NARROW: f64 = 2.220446049250313e-16;

// The wide one.
pub const WIDE: f64 = 1e-10;

// Kept: the definition, by which Close is proved, leaves -0.0 as it is; `f64::abs` answers 0.0 for it, so it does not meet this contract.
#[tactic(auto, unfolding(crate::specs::Close::magnitude))]
pub fn magnitude_of(x: f64) -> f64
    ensures { result ≡ magnitude x }
{
    if x < 0.0 { -x } else { x }
}

// Kept: one line over the library's, as `is_finite` of compare.
#[tactic(auto, using(crate::proofs::Infinity::is_infinite_tells))]
pub fn is_infinite(x: f64) -> bool
    ensures { result ≡ infinite x }
{
    x.is_infinite()
}

#[tactic(auto, unfolding(crate::specs::Close::within))]
fn is_within(a: f64, b: f64, e: f64) -> bool
    ensures { result ≡ within a b e }
{
    let distance = magnitude_of(a - b);
    distance <= e || distance <= 1e-9 * crate::compare::max_of_2(magnitude_of(a), magnitude_of(b))
}

// The same of finite numbers, b above a. Above zero they are their own magnitudes, and b is the larger.
pub fn is_within_above(a: f64, b: f64, e: f64) -> bool
    ensures { finite a ≡ true → finite b ≡ true → le b a ≡ false → result ≡ within a b e }
{
    if a > 0.0 {
        let distance = b - a;
        return distance <= 1e-9 * b || distance <= e;
    }
    is_within(a, b, e)
}

// Equal; or neither infinite, and the distance is at most e or at most 1e-9 of the larger magnitude.
#[tactic(auto, unfolding(crate::specs::Close::close))]
pub fn is_close(a: f64, b: f64, e: f64) -> bool
    ensures { result ≡ close a b e }
{
    a == b || (!is_infinite(a) && !is_infinite(b) && is_within(a, b, e))
}

// Kept: this and the next are 01's two words, a line each; one function with the tolerance as its parameter is `is_close`.
#[tactic(auto, unfolding(crate::specs::Close::narrow_close))]
pub fn is_narrow_close(a: f64, b: f64) -> bool
    ensures { result ≡ narrow_close a b }
{
    is_close(a, b, NARROW)
}

#[tactic(auto, unfolding(crate::specs::Close::wide_close))]
pub fn is_wide_close(a: f64, b: f64) -> bool
    ensures { result ≡ wide_close a b }
{
    is_close(a, b, WIDE)
}

// Close of two numbers above zero, the lower one first. They are their own magnitudes, and the upper one is the larger; its distance from the lower one is
// infinite where it is.
fn is_close_pair(lower: f64, upper: f64, e: f64) -> bool
    ensures { finite e ≡ true → lt zero_f lower ≡ true → lt lower upper ≡ true → ClosePair lower upper e result }
{
    let distance = upper - lower;
    distance <= e || (distance <= 1e-9 * upper && !is_infinite(upper))
}

// Close of a number and one below it.
pub fn is_close_above(upper: f64, lower: f64, e: f64) -> bool
    ensures { finite e ≡ true → lt lower upper ≡ true → result ≡ close upper lower e }
{
    if lower > 0.0 {
        return is_close_pair(lower, upper, e);
    }
    is_close(upper, lower, e)
}
