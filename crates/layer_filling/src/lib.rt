// The filling of one layer, from what it still holds.
#![tactic(auto)]

ghost use Rattle.std.specs.Prelude.{◌≡◌, List, ◌<◌, Float};
ghost use Rattle.mixing.specs.Limits.{max_layers};
ghost use Rattle.layer_filling.specs.Filling.{take_share, take_from, from_feed, enters_warmer};
ghost use Rattle.layer_filling.specs.Lent.{start_filling, filling_with};

use draw_off::cold::Feed;
use mixing::limits::MAX_LAYERS;

// The filling of one layer: what it lacks, the volume it has, that volume weighted by temperature, and the coldest water met.
#[derive(Clone, Copy)]
pub struct LayerFilling {
    pub lack: f64,
    pub volume: f64,
    pub weighted: f64,
    pub coldest: f64,
}

impl LayerFilling {
    // A layer that takes `full` still holds `held` at temperature t; t counts as met even when it is empty.
    pub fn new(full: f64, held: f64, t: f64) -> LayerFilling
        ensures { result ≡ start_filling full held t }
    {
        LayerFilling {
            lack: full - held,
            volume: held,
            weighted: held * t,
            coldest: t,
        }
    }

    // The layer j gives what is lacking, or all that it holds.
    // Kept: `j < max_layers`, here and in `take_from`: the loop knows it of its range; a type of places would be built at each pass, to say it again.
    #[tactic(auto, unfolding(crate::specs::Filling::take_share))]
    pub fn take_share(
        self,
        j: usize,
        before: &[f64; MAX_LAYERS],
        held: &mut [f64; MAX_LAYERS],
    ) -> LayerFilling
        requires { j < max_layers }
        ensures { filling_with held.new result ≡ take_share before.now j (filling_with held.old self) }
    {
        let h = held[j];
        let t = before[j];
        let v = numeric::compare::min_of_2(self.lack, h);
        held[j] = h - v;
        LayerFilling {
            lack: self.lack - v,
            volume: self.volume + v,
            weighted: self.weighted + v * t,
            coldest: numeric::compare::min_of_2(t, self.coldest),
        }
    }

    // Only a layer that holds more than zero is met.
    #[tactic(auto, unfolding(crate::specs::Filling::take_from))]
    pub fn take_from(
        self,
        j: usize,
        before: &[f64; MAX_LAYERS],
        held: &mut [f64; MAX_LAYERS],
    ) -> LayerFilling
        requires { j < max_layers }
        ensures { filling_with held.new result ≡ take_from before.now j (filling_with held.old self) }
    {
        if held[j] > 0.0 {
            return self.take_share(j, before, held);
        }
        self
    }

    // A lack above zero enters from the feed, at cold(lack).
    #[tactic(auto, unfolding(crate::specs::Filling::from_feed))]
    pub fn take_from_feed(self, feed: Feed) -> LayerFilling
        ensures { (held : List Float) → filling_with held result ≡ from_feed feed (filling_with held self) }
    {
        let v = self.lack;
        if v > 0.0 {
            return LayerFilling {
                volume: self.volume + v,
                weighted: self.weighted + v * draw_off::cold::cold_temp(feed, v),
                ..self
            };
        }
        self
    }

    // The feed's water is warmer than the coldest water met.
    #[tactic(auto, unfolding(crate::specs::Filling::enters_warmer))]
    pub fn does_enter_warmer(self, feed: Feed) -> bool
        ensures { (held : List Float) → result ≡ enters_warmer feed (filling_with held self) }
    {
        self.lack > 0.0 && draw_off::cold::cold_temp(feed, self.lack) > self.coldest
    }
}
