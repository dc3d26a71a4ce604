// The feed, and the temperature of cold water: the source answers one pair, the feed temperature and the volume wanted.
ghost use Rattle.std.specs.Prelude.{◌≡◌, [], ◌∷◌};
ghost use Rattle.numeric.specs.Sum2.{sum2};
ghost use Rattle.draw_off.specs.Cold.{cold};

use numeric::sum2::Accumulator;

// The water that enters the tank from below.
#[derive(Clone, Copy)]
pub struct Feed {
    pub temperature: f64,
}

fn sum2_of_one(b: f64) -> f64
    ensures { result ≡ sum2 (b ∷ []) }
{
    Accumulator::start().add_term(b).total_of()
}

// Both are Sum2s: the quotient need not be the feed's own temperature.
#[tactic(auto, unfolding(crate::specs::Cold::cold))]
pub fn cold_temp(feed: Feed, v: f64) -> f64
    ensures { result ≡ cold feed v }
{
    sum2_of_one(feed.temperature * v) / sum2_of_one(v)
}
