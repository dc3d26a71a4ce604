// `min_of_2` and `max_of_2` of compare_floats.rs, and whether a double is finite.
ghost use Rattle.std.specs.Prelude.{◌≡◌, ◌&&◌};
ghost use Rattle.std.specs.Float.Ieee.{lt};
ghost use Rattle.std.specs.Float.Ieee.Scale.{finite};
ghost use Rattle.numeric.specs.Double.{zero_f};
ghost use Rattle.numeric.specs.Compare.{min_of2, max_of2, SaysSame};

// Kept: 01 prescribes the Rust's own; f64::min and f64::max answer otherwise where a number is not one, and leave open which zero they give.
#[tactic(auto, unfolding(crate::specs::Compare::min_of2))]
pub fn min_of_2(first: f64, second: f64) -> f64
    ensures { result ≡ min_of2 first second }
{
    if first < second { first } else { second }
}

#[tactic(auto, unfolding(crate::specs::Compare::max_of2))]
pub fn max_of_2(first: f64, second: f64) -> f64
    ensures { result ≡ max_of2 first second }
{
    if first > second { first } else { second }
}

// Neither infinite nor not-a-number.
// Kept: one line over the library's, whose contract has a `finite` of its own: by this one no caller cites the lemma that both are one.
#[tactic(auto, using(crate::proofs::Infinity::is_finite_tells))]
pub fn is_finite(x: f64) -> bool
    ensures { result ≡ finite x }
{
    x.is_finite()
}

// What 01 asks of a volume, a density, a specific heat and a step length.
pub fn is_finite_above_zero(x: f64) -> bool
    ensures { result ≡ (finite x && lt zero_f x) }
{
    is_finite(x) && x > 0.0
}

// Equal doubles are the same where they are above zero.
// Kept: a name for `==`, as its contract says what that does not: what equals a number above zero is that number. Else each caller's proof would cite the law.
pub fn is_same(x: f64, y: f64) -> bool
    ensures { SaysSame x y result }
{
    x == y
}
