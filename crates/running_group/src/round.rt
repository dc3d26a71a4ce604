// One round: the pairs from the bottom up, each joining the running group or ending it.
ghost use Rattle.std.specs.Prelude.{◌≡◌, false, cond, ◌+◌, ◌≤◌, ◌<◌};
ghost use Rattle.mixing.specs.Limits.{max_layers};
ghost use Rattle.layer_joining.specs.Running.{SaysJoins, not_above};
ghost use Rattle.running_group.specs.Rounds.{Started, Ended, PairFollows, RoundLeaves};

use layer_joining::{NextLayer, RunningGroup};
use mixing::limits::MAX_LAYERS;

// Of finite temperatures: hotter, equal, or narrow-close.
fn does_join_finite(lower: f64, upper: f64) -> bool
    ensures { SaysJoins lower upper result }
{
    lower >= upper || numeric::close::is_within_above(lower, upper, numeric::close::NARROW)
}

// The layers below a group that ends, and the group itself.
fn is_still_sorted(r: RunningGroup) -> bool
    ensures { result ≡ cond r.sorted (not_above r.below r.temp) false }
{
    match r.below {
        Some(layer) => r.sorted && layer <= r.temp,
        None => r.sorted,
    }
}

// A group of the one layer i, of volume v.
fn start_group(
    i: usize,
    temp: f64,
    v: f64,
    below: Option<f64>,
    sorted: bool,
    met: f64,
) -> RunningGroup
    ensures { Started i temp v below sorted met result }
{
    let product = v * temp;
    RunningGroup {
        bottom: i,
        temp,
        heat: shorter_sums::one_term(product),
        volume: shorter_sums::one_term(v * 1.0),
        each: Some(v),
        below,
        sorted,
        met: met + product,
    }
}

// The layers from bottom to below end take x; one layer alone has it already.
// Kept: bottom and end beside the array, as of `fill_group`: a slice of the group would be another list than that of which `RoundLeaves` speaks.
fn end_group(bottom: usize, end: usize, x: f64, temps: &mut [f64; MAX_LAYERS])
    requires { (bottom < end) × (end ≤ max_layers) }
    ensures { Ended bottom end x temps.old temps.new }
{
    if bottom + 1 < end {
        plain_mixing::round::fill_group(bottom, end, x, temps);
    }
}

// The pair of the layers i and i + 1: it joins the group, or it ends it.
fn run_pair(
    r: RunningGroup,
    vol: &[f64; MAX_LAYERS],
    i: usize,
    temps: &mut [f64; MAX_LAYERS],
) -> RunningGroup
    requires { (r.bottom ≤ i) × (i + 1 < max_layers) }
    ensures { PairFollows vol.now i temps.old temps.new r result }
{
    let next = NextLayer {
        below: i,
        volume: vol[i + 1],
        temp: temps[i + 1],
    };
    if does_join_finite(r.temp, next.temp) {
        return r.join(vol, next);
    }
    end_group(r.bottom, i + 1, r.temp, temps);
    let sorted = is_still_sorted(r);
    start_group(i + 1, next.temp, next.volume, Some(r.temp), sorted, r.met)
}

// A round in place; the answer is whether the layers are in order after it. Where a product met is not finite there is none, and what it leaves is of no use.
// Kept: beside `mix_round` of plain_mixing, the round by the definition: this one sums over the group alone, which gives the same only of finite products.
// Kept: n beside the arrays: 01's definitions (Mix) speak of n layers in 32 places, and so does the contract; a slice would be another list.
pub fn try_round(n: usize, vol: &[f64; MAX_LAYERS], temps: &mut [f64; MAX_LAYERS]) -> Option<bool>
    requires { (1 ≤ n) × (n ≤ max_layers) }
    ensures { RoundLeaves n vol.now temps.old temps.new result }
{
    let mut r = start_group(0, temps[0], vol[0], None, true, 0.0);
    for i in 0..n - 1 {
        r = run_pair(r, vol, i, temps);
    }
    end_group(r.bottom, n, r.temp, temps);
    numeric::compare::is_finite(r.met).then_some(is_still_sorted(r))
}
