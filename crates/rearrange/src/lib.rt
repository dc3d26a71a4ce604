// `rearrange_temperatures`: rounds until order is nondecreasing, the first always run; and the call `mix`.
#![tactic(auto)]

pub mod mix;

ghost use Rattle.std.specs.Prelude.{◌≤◌};
ghost use Rattle.mixing.specs.Limits.{max_layers};
ghost use Rattle.mixing.specs.Mix.{Rearranged};
ghost use Rattle.running_group.specs.Rounds.{RoundWorked};

use mixing::limits::MAX_LAYERS;
use refusals::Refusal;

// A round by the definition, each sum over all layers; the answer is whether the layers are in order after it.
fn plain_round(n: usize, vol: &[f64; MAX_LAYERS], temps: &mut [f64; MAX_LAYERS]) -> bool
    requires { (1 ≤ n) × (n ≤ max_layers) }
    ensures { RoundWorked n vol.now temps.old temps.new result }
{
    plain_mixing::round::mix_round(n, vol, temps);
    plain_mixing::round::is_sorted(n, temps)
}

// A round in place; the answer is whether the layers are in order after it. While `short`, it is worked over the running group's layers alone; where a product
// of volume and temperature is not finite, which no ordinary layers have, it is worked again by the definition, and so are all rounds from there on: such a
// product mostly stays, and to try each round first would take several times as long.
fn work_round(
    n: usize,
    vol: &[f64; MAX_LAYERS],
    temps: &mut [f64; MAX_LAYERS],
    short: &mut bool,
) -> bool
    requires { (1 ≤ n) × (n ≤ max_layers) }
    ensures { RoundWorked n vol.now temps.old temps.new result }
{
    if !*short {
        return plain_round(n, vol, temps);
    }
    let before = *temps;
    if let Some(sorted) = running_group::round::try_round(n, vol, temps) {
        return sorted;
    }
    *short = false;
    *temps = before;
    plain_round(n, vol, temps)
}

// Works in place; a refused mixing puts back what it found.
// Kept: n beside the arrays, here and above: 01's definitions (Mix) speak of n layers in 32 places, and so do the contracts; a slice would be another list.
pub fn rearrange_temperatures(
    n: usize,
    vol: &[f64; MAX_LAYERS],
    temps: &mut [f64; MAX_LAYERS],
) -> Result<usize, Refusal>
    requires { (1 ≤ n) × (n ≤ max_layers) }
    ensures { Rearranged n vol.now temps.old result temps.new }
{
    let initial = *temps;
    let mut short = true;
    for k in 0..mixing::limits::max_rounds(n) {
        if work_round(n, vol, temps, &mut short) {
            return Ok(k + 1);
        }
    }
    *temps = initial;
    Err(Refusal::OutOfOrder)
}
