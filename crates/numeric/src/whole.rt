// A double cut to a whole number by comparison, and the layer of a position.
ghost use Rattle.std.specs.Prelude.{◌≡◌, ◌≤◌};
ghost use Rattle.numeric.specs.Double.{whole};
ghost use Rattle.numeric.specs.Whole.{whole_below, layer_of};

// Every whole number up to 2^53 is a double.
// Kept: the bound, at each of the three. A `u32` has none (`f64::from`), but a count of layers is a `usize`: each caller would cast it, and owe a bound there.
pub fn whole_of(n: usize) -> f64
    requires { n ≤ 9007199254740992 }
    ensures { result ≡ whole n }
{
    n as f64
}

// The largest whole number below n that is at most x, and 0 where there is none: looked for from the lowest up.
pub fn whole_below(n: usize, x: f64) -> usize
    requires { n ≤ 9007199254740992 }
    ensures { result ≡ whole_below n x }
{
    for k in 1..n {
        if !(whole_of(k) <= x) {
            return k - 1;
        }
    }
    n.saturating_sub(1)
}

#[tactic(auto, unfolding(crate::specs::Whole::layer_of))]
pub fn layer_of(position: f64, layers: usize) -> usize
    requires { layers ≤ 9007199254740992 }
    ensures { result ≡ layer_of position layers }
{
    whole_below(layers, position * whole_of(layers))
}
