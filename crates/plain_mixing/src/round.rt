// One round of `rearrange_temperatures`, worked in place on lent layers.
ghost use Rattle.std.specs.Prelude.{◌≡◌, ◌+◌, ◌≤◌, ◌<◌};
ghost use Rattle.mixing.specs.Limits.{max_layers};
ghost use Rattle.mixing.specs.Round.{joins, member, group_temp, fill, walk_at, pair, one_round};
ghost use Rattle.mixing.specs.Rearrange.{is_sorted};

use mixing::limits::MAX_LAYERS;
use numeric::sum2::Accumulator;

// A pair joins the group: its lower layer is hotter or narrow-close.
// Kept: a line, as `is_reached` of heater_switches: each is named for what 01 says by it, and one for both could be named only for how it is worked.
#[tactic(auto, unfolding(mixing::specs::Round::joins))]
pub fn does_join(lower: f64, upper: f64) -> bool
    ensures { result ≡ joins lower upper }
{
    lower > upper || numeric::close::is_narrow_close(lower, upper)
}

// 1 for a layer k of the group from bottom to below end, 0 for a layer outside it.
#[tactic(auto, unfolding(mixing::specs::Round::member))]
fn member_of(bottom: usize, end: usize, k: usize) -> f64
    ensures { result ≡ member bottom end k }
{
    if bottom <= k && k < end { 1.0 } else { 0.0 }
}

// What the group's layers take: both sums run over all n layers, in one pass.
// Kept: n beside the arrays, here and below: 01's definitions (Mix) speak of n layers in 32 places, and so do the contracts; a slice would be another list.
fn group_temp(
    n: usize,
    vol: &[f64; MAX_LAYERS],
    temps: &[f64; MAX_LAYERS],
    bottom: usize,
    end: usize,
) -> f64
    requires { n ≤ max_layers }
    ensures { result ≡ group_temp n vol.now temps.now bottom end }
{
    let mut heat = Accumulator::start();
    let mut volume = Accumulator::start();
    for k in 0..n {
        let m = member_of(bottom, end, k);
        heat = heat.add_term(vol[k] * temps[k] * m);
        volume = volume.add_term(vol[k] * m);
    }
    heat.total_of() / volume.total_of()
}

// The layers from bottom to below end take x.
// Kept: bottom and end, and no `Range`, here and above: a group's bottom is kept from pair to pair and its end is not, and a `Range` is not `Copy`.
// Kept: a group is a range of the places, here and in the crates above: a slice of them would be cut anew at each pair, and its law said of another list.
pub fn fill_group(bottom: usize, end: usize, x: f64, temps: &mut [f64; MAX_LAYERS])
    requires { (bottom ≤ end) × (end ≤ max_layers) }
    ensures { temps.new ≡ fill bottom end x temps.old }
{
    temps[bottom..end].fill(x);
}

// The pair of the layers i and i + 1, where the running group starts at bottom; the answer is where it starts after the pair.
#[tactic(auto, unfolding(mixing::specs::Round::pair))]
fn mix_pair(
    n: usize,
    vol: &[f64; MAX_LAYERS],
    i: usize,
    bottom: usize,
    temps: &mut [f64; MAX_LAYERS],
) -> usize
    requires { (i + 1 < n) × (n ≤ max_layers) × (bottom ≤ i) }
    ensures { walk_at temps.new result ≡ pair n vol.now i (walk_at temps.old bottom) }
{
    if does_join(temps[i], temps[i + 1]) {
        let x = group_temp(n, vol, temps, bottom, i + 2);
        fill_group(bottom, i + 2, x, temps);
        return bottom;
    }
    i + 1
}

// The pairs from the bottom up.
// Kept: beside `try_round` of running_group: this is the round by the definition, which that one leaves only where each product that it meets is finite.
// Kept: `1 ≤ n`, here and wherever layers are mixed: a type that keeps it would be built at each call, and asked of callers that need no layer.
pub fn mix_round(n: usize, vol: &[f64; MAX_LAYERS], temps: &mut [f64; MAX_LAYERS])
    requires { (1 ≤ n) × (n ≤ max_layers) }
    ensures { temps.new ≡ one_round n vol.now temps.old }
{
    let mut bottom = 0;
    for i in 0..n - 1 {
        bottom = mix_pair(n, vol, i, bottom, temps);
    }
}

// Each of n layers at most the one above it.
// Kept: one line over the library's, whose contract speaks of its order: by this one no caller cites the lemma that both are one.
pub fn is_sorted(n: usize, temps: &[f64; MAX_LAYERS]) -> bool
    requires { (1 ≤ n) × (n ≤ max_layers) }
    ensures { result ≡ is_sorted n temps.now }
{
    temps[..n].is_sorted()
}
