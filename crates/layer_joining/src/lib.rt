// A layer joins the running group: the group's new temperature, and its heat at it.
#![tactic(auto)]

ghost use Rattle.layer_joining.specs.Running.{EachWith, Enters, EntersAny, EntersEven, StillFollows};

use mixing::limits::MAX_LAYERS;
use numeric::sum2::Accumulator;

// The running group, and what the round has met so far.
#[derive(Clone, Copy)]
pub struct RunningGroup {
    // Its lowest layer, and the temperature of its layers.
    pub bottom: usize,
    pub temp: f64,
    // Sum2 of volume × temp, and of volume, over its layers.
    pub heat: Accumulator,
    pub volume: Accumulator,
    // The volume of each of its layers, where they have one.
    pub each: Option<f64>,
    // The layer below it, where there is one; and whether the layers below it are in order.
    pub below: Option<f64>,
    pub sorted: bool,
    // A plain sum of the products met: it is finite only where each of them is.
    pub met: f64,
}

// The layer above a running group, which joins it: the number of the layer below it, its volume, and its temperature.
#[derive(Clone, Copy)]
pub struct NextLayer {
    pub below: usize,
    pub volume: f64,
    pub temp: f64,
}

// The volume of each layer, with one of volume v more.
fn each_with(each: Option<f64>, v: f64) -> Option<f64>
    ensures { EachWith each v result }
{
    match each {
        Some(x) if v == x => each,
        _ => None,
    }
}

// Kept: the volumes beside the next layer, in three functions: they are of all layers, and a group that held a list of them would be copied with it.
impl RunningGroup {
    // A layer joins; `volume` is the group's with it. The heat at the group's new temperature goes on from what is kept where the temperature is what it was;
    // otherwise it is worked anew.
    fn join_any(self, vol: &[f64; MAX_LAYERS], next: NextLayer, volume: Accumulator) -> RunningGroup
        requires { EntersAny vol.now next self volume }
        ensures { StillFollows vol.now next self result }
    {
        let own = next.volume * next.temp;
        let sum = self.heat.add_term(own);
        let temp = sum.total_of() / volume.total_of();
        let heat = if temp == self.temp {
            group_sums::add_known(self.heat, next.volume * self.temp, own, sum)
        } else {
            group_sums::heat_at(vol, self.bottom, next.below + 2, temp)
        };
        RunningGroup {
            temp,
            heat,
            volume,
            each: each_with(self.each, next.volume),
            met: self.met + sum.s + heat.s,
            ..self
        }
    }

    // The same where each layer has the volume of the next, and `sum`, of this total, is the group's heat with the layer's own: one product tells whether all
    // are what they were.
    // Kept: beside join_any, as it asks more of the group and sums otherwise: one of both would take the total, the test and the sum, which is no plainer.
    // It is inlined at both calls, on the mixing's hot path: a division that waits for either total takes the longer time of both, and as a call of its own a
    // mixing of equal layers took three times as long.
    #[inline(always)]
    fn join_even(
        self,
        vol: &[f64; MAX_LAYERS],
        next: NextLayer,
        sum: Accumulator,
        total: f64,
        volume: Accumulator,
    ) -> RunningGroup
        requires { EntersEven vol.now next self sum total volume }
        ensures { StillFollows vol.now next self result }
    {
        let product = next.volume * self.temp;
        let temp = total / volume.total_of();
        let p = next.volume * temp;
        let heat = if p == product {
            group_sums::add_known(self.heat, product, next.volume * next.temp, sum)
        } else {
            group_sums::even_heat(vol, self.bottom, next.below + 2, temp, p)
        };
        RunningGroup {
            temp,
            heat,
            volume,
            met: self.met + sum.s + heat.s,
            ..self
        }
    }

    // A layer joins. Where its volume is that of each, and its heat is above zero and at most the group's, which most layers have, the shorter sums serve;
    // where it is colder, the total is guessed.
    pub fn join(self, vol: &[f64; MAX_LAYERS], next: NextLayer) -> RunningGroup
        requires { Enters vol.now next self }
        ensures { StillFollows vol.now next self result }
    {
        let v = next.volume;
        let own = v * next.temp;
        let sum = shorter_sums::add_smaller(self.heat, own);
        // A volume counts times 1, as the definition has it; the compiled code leaves that out.
        let volume = self.volume.add_term(v * 1.0);
        if let Some(each) = self.each {
            if v == each {
                if own > 0.0 {
                    if own <= self.heat.s {
                        let product = v * self.temp;
                        if own < product {
                            let more = next.below - self.bottom;
                            let guess = group_sums::guess_total(more, v, self.temp, product, own);
                            if let Some(guess) = guess {
                                if group_sums::is_total(sum, guess) {
                                    return self.join_even(vol, next, sum, guess, volume);
                                }
                            }
                        }
                        return self.join_even(vol, next, sum, sum.total_of(), volume);
                    }
                }
            }
        }
        self.join_any(vol, next, volume)
    }
}
