// `extract_hot_water`: what one event takes from the layers, from the top down, and from the feed.
ghost use Rattle.std.specs.Prelude.{◌≡◌, List, ◌<◌, Float};
ghost use Rattle.mixing.specs.Limits.{max_layers};
ghost use Rattle.draw_off.specs.Draw.{gives_all, share, rest_after, counted, draw_share, draw_layer, draw_layers, unreached, draw_feed};
ghost use Rattle.draw_off.specs.Draw.{extract, untouched};
ghost use Rattle.draw_off.specs.Lent.{draw_of};

use crate::cold::Feed;
use cylinder::{Cylinder, LayeredCylinder};
use mixing::limits::MAX_LAYERS;

// What an event has drawn: the rest wanted, the event's energy, and the weighted sum and the volume drawn of the whole step so far.
#[derive(Clone, Copy)]
pub struct Drawn {
    pub rest: f64,
    pub energy: f64,
    pub weighted: f64,
    pub drawn: f64,
    // How many layers, from the bottom, the draw did not reach.
    pub untouched: usize,
}

// A layer smaller than, or narrow-close to, the rest gives all.
// Kept: a line, as `is_at_or_under` of heater_switches: each is named for what 01 says by it, and one for both only for how it is worked.
#[tactic(auto, unfolding(crate::specs::Draw::gives_all))]
fn does_give_all(held: f64, rest: f64) -> bool
    ensures { result ≡ gives_all held rest }
{
    held < rest || numeric::close::is_narrow_close(held, rest)
}

#[tactic(auto, unfolding(crate::specs::Draw::share))]
fn share_of(held: f64, rest: f64) -> f64
    ensures { result ≡ share held rest }
{
    if does_give_all(held, rest) {
        held
    } else {
        rest
    }
}

#[tactic(auto, unfolding(crate::specs::Draw::rest_after))]
fn rest_after(held: f64, rest: f64) -> f64
    ensures { result ≡ rest_after held rest }
{
    if does_give_all(held, rest) {
        rest - held
    } else {
        0.0
    }
}

// The volume v at temperature t counts over water at the temperature `cool`; `rest` is still wanted.
fn count_share(c: Cylinder, v: f64, t: f64, cool: f64, rest: f64, d: Drawn) -> Drawn
    ensures { (held : List Float) → draw_of held result ≡ counted c v t cool held rest (draw_of held d) }
{
    Drawn {
        rest,
        energy: d.energy + c.rho * c.cp * v * (t - cool),
        weighted: d.weighted + v * t,
        drawn: d.drawn + v,
        ..d
    }
}

// What the layers of an event's draw have in common: the tank, the feed, the temperatures before the event, and the volume wanted.
#[derive(Clone, Copy)]
struct EventDraw<'a> {
    tank: &'a LayeredCylinder,
    feed: Feed,
    temps: &'a [f64; MAX_LAYERS],
    wanted: f64,
}

impl<'a> EventDraw<'a> {
    // The layer i gives its share, over water at cold(event volume).
    // Kept: `i < max_layers`, here and in `draw_layer`: the loop knows it of its range; a type of places would be built at each pass, to say it again.
    fn draw_share(&self, i: usize, held: &mut [f64; MAX_LAYERS], d: Drawn) -> Drawn
        requires { i < max_layers }
        ensures { draw_of held.new result
            ≡ draw_share self.now.tank.now.numbers self.now.feed self.now.temps.now self.now.wanted
            i (draw_of held.old d) }
    {
        let h = held[i];
        let v = share_of(h, d.rest);
        let rest = rest_after(h, d.rest);
        let cool = crate::cold::cold_temp(self.feed, self.wanted);
        held[i] = h - v;
        count_share(self.tank.numbers, v, self.temps[i], cool, rest, d)
    }

    // An emptied layer is skipped.
    #[tactic(auto, unfolding(crate::specs::Draw::draw_layer))]
    fn draw_layer(&self, i: usize, held: &mut [f64; MAX_LAYERS], d: Drawn) -> Drawn
        requires { i < max_layers }
        ensures { draw_of held.new result
            ≡ draw_layer self.now.tank.now.numbers self.now.feed self.now.temps.now self.now.wanted
            i (draw_of held.old d) }
    {
        if cylinder::is_no_volume(held[i]) {
            return d;
        }
        self.draw_share(i, held, d)
    }

    // From the top down, until the rest wanted is none.
    fn draw_layers(&self, held: &mut [f64; MAX_LAYERS], start: Drawn) -> Drawn
        ensures drawn { let c = self.now.tank.now.numbers in draw_of held.new result
            ≡ draw_layers c self.now.feed self.now.temps.now self.now.wanted c.layers
            (draw_of held.old start) }
        ensures left { let c = self.now.tank.now.numbers in result.untouched
            ≡ unreached c self.now.feed self.now.temps.now self.now.wanted c.layers
            (draw_of held.old start) }
    {
        let mut d = start;
        for i in (0..self.tank.numbers.layers).rev() {
            if cylinder::is_no_volume(d.rest) {
                return Drawn {
                    untouched: i + 1,
                    ..d
                };
            }
            d = self.draw_layer(i, held, d);
        }
        Drawn { untouched: 0, ..d }
    }
}

// A rest above zero, however small, comes from the feed.
fn draw_feed(c: Cylinder, feed: Feed, d: Drawn) -> Drawn
    ensures { (held : List Float) → draw_of held result ≡ draw_feed c feed (draw_of held d) }
{
    if d.rest > 0.0 {
        return count_share(
            c,
            d.rest,
            feed.temperature,
            crate::cold::cold_temp(feed, d.rest),
            d.rest,
            d,
        );
    }
    d
}

// The event of the volume `wanted`: `held` comes with full layers, and is left with what each of them still holds.
pub fn extract_hot_water(
    tank: &LayeredCylinder,
    feed: Feed,
    temps: &[f64; MAX_LAYERS],
    wanted: f64,
    weighted: f64,
    drawn: f64,
    held: &mut [f64; MAX_LAYERS],
) -> Drawn
    ensures drawn { draw_of held.new result
        ≡ extract tank.now.numbers held.old feed temps.now wanted weighted drawn }
    ensures left { result.untouched
        ≡ untouched tank.now.numbers held.old feed temps.now wanted weighted drawn }
{
    let start = Drawn {
        rest: wanted,
        energy: 0.0,
        weighted,
        drawn,
        untouched: tank.numbers.layers,
    };
    let draw = EventDraw {
        tank,
        feed,
        temps,
        wanted,
    };
    let d = draw.draw_layers(held, start);
    let all = draw_feed(tank.numbers, feed, d);
    Drawn {
        untouched: d.untouched,
        ..all
    }
}
