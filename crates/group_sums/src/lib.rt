// The sums over a running group's layers alone, and the guess at a total.
#![tactic(auto)]

ghost use Rattle.std.specs.Prelude.{◌≡◌, true, ◌≤◌, ◌<◌};
ghost use Rattle.numeric.specs.Sum2.{total};
ghost use Rattle.mixing.specs.Limits.{max_layers};
ghost use Rattle.group_sums.specs.Sums.{guessed_total, heat_sum, EvenSum, OneMore};

use mixing::limits::MAX_LAYERS;
use numeric::sum2::Accumulator;

// Sum2 of volume × x over the layers from bottom to below end.
// Kept: bottom and end beside the array, as of `fill_group`: a slice of the group would be cut at each call, and its sum said of another list.
pub fn heat_at(vol: &[f64; MAX_LAYERS], bottom: usize, end: usize, x: f64) -> Accumulator
    requires { (bottom ≤ end) × (end ≤ max_layers) }
    ensures { result ≡ heat_sum vol.now x bottom end }
{
    let mut heat = Accumulator::start();
    for k in bottom..end {
        heat = heat.add_term(vol[k] * x);
    }
    heat
}

// The same where each layer's product is p: from p alone, where that is above zero.
pub fn even_heat(vol: &[f64; MAX_LAYERS], bottom: usize, end: usize, x: f64, p: f64) -> Accumulator
    requires { (bottom < end) × (end ≤ max_layers) }
    ensures { EvenSum vol.now x p bottom end result }
{
    if p > 0.0 {
        return shorter_sums::equal_terms(p, end - bottom);
    }
    heat_at(vol, bottom, end, x)
}

// The sum of a and b, where the sum of a and c is known: it serves where c equals b.
pub fn add_known(a: Accumulator, b: f64, c: f64, known: Accumulator) -> Accumulator
    ensures { OneMore a b c known result }
{
    if c == b {
        return known;
    }
    a.add_term(b)
}

// The total of a layer's own heat and the heat p of each of more + 1 layers, in few roundings: nearly always what Sum2 gives. It is a guess, of up to nine
// layers; it does not wait for a sum of the layers. p is v × temp; its multiples lose nothing and are worked from 2 v, 4 v and 8 v, so that they do not wait
// for p.
#[tactic(auto, unfolding(crate::specs::Sums::guessed_total))]
pub fn guess_total(more: usize, v: f64, temp: f64, p: f64, own: f64) -> Option<f64>
    ensures { result ≡ guessed_total more v temp p own }
{
    match more {
        0 => Some(p + own),
        1 => Some((2.0 * v) * temp + own),
        2 => Some((4.0 * v) * temp + (own - p)),
        3 => Some((4.0 * v) * temp + own),
        4 => Some((4.0 * v) * temp + (own + p)),
        5 => Some((8.0 * v) * temp + (own - (2.0 * v) * temp)),
        6 => Some((8.0 * v) * temp + (own - p)),
        7 => Some((8.0 * v) * temp + own),
        8 => Some((8.0 * v) * temp + (own + p)),
        _ => None,
    }
}

// Whether a guess is the total.
pub fn is_total(heat: Accumulator, guess: f64) -> bool
    ensures { result ≡ true → total heat ≡ guess }
{
    if guess > 0.0 {
        return numeric::compare::is_same(heat.total_of(), guess);
    }
    false
}
