// The Sum2 of the layers that a draw leaves full, kept from event to event.
ghost use Rattle.std.specs.Prelude.{◌≡◌, List, ◌≤◌, Float};
ghost use Rattle.mixing.specs.Limits.{max_layers};
ghost use Rattle.draw_off.specs.Draw.{volume_used};
ghost use Rattle.draw_events.specs.Kept.{sum_of_first, IsSumOf};

use cylinder::LayeredCylinder;
use mixing::limits::MAX_LAYERS;
use numeric::sum2::Accumulator;

// How many layers, from the bottom, and their sum.
#[derive(Clone, Copy, Default)]
pub struct KeptSum {
    pub layers: usize,
    pub sum: Accumulator,
}

// Kept: n beside the array, here and in `keep`: the sum that is kept is said of the first n places of the tank's list; a slice would be another list.
fn sum_first(n: usize, vol: &[f64; MAX_LAYERS]) -> Accumulator
    requires { n ≤ max_layers }
    ensures { result ≡ sum_of_first vol.now n }
{
    let mut a = Accumulator::start();
    for v in &vol[..n] {
        a = a.add_term(*v);
    }
    a
}

impl KeptSum {
    // The sum of no layers.
    #[tactic(auto, unfolding(crate::specs::Kept::sum_of_first, numeric::specs::Iterate::iterate))]
    pub fn none() -> KeptSum
        ensures { (xs : List Float) → IsSumOf xs result }
    {
        KeptSum::default()
    }

    // From now on the sum of the first n layers: the kept one, where it is of so many.
    pub fn keep(&mut self, n: usize, vol: &[f64; MAX_LAYERS])
        requires { (n ≤ max_layers) × IsSumOf vol.now self.old }
        ensures layers { self.new.layers ≡ n }
        ensures sum { IsSumOf vol.now self.new }
    {
        if self.layers == n {
            return;
        }
        *self = KeptSum {
            layers: n,
            sum: sum_first(n, vol),
        };
    }

    // The tank's volume less Sum2 of what the layers still hold, the first of which have the kept sum.
    pub fn volume_used(&self, tank: &LayeredCylinder, held: &[f64; MAX_LAYERS]) -> f64
        requires { (self.now.layers ≤ tank.now.numbers.layers) × IsSumOf held.now self.now }
        ensures { result ≡ volume_used tank.now.numbers held.now }
    {
        let mut a = self.sum;
        for h in &held[self.layers..tank.numbers.layers] {
            a = a.add_term(*h);
        }
        tank.numbers.volume - a.total_of()
    }
}
