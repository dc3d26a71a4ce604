// `calc_temps_after_thermal_losses`. `before` are the layers before the heat, `mixed` those that the mixing left, with what earlier heaters charged each
// this step.
#![tactic(auto)]

ghost use Rattle.std.specs.Prelude.{◌≡◌, ◌<◌};
ghost use Rattle.mixing.specs.Limits.{max_layers};
ghost use Rattle.thermal_losses.specs.Losses.{layer_of, surplus_from, surplus, adjusted, HeatLost, LossesWorked};

use cylinder::LayeredCylinder;
use layer_losses::Layer;
use mixing::limits::MAX_LAYERS;
use numeric::sum2::Accumulator;
use set_points::SetPoints;

// The input less the surplus, between 0 and the input; 0 if the input is not above zero.
#[tactic(auto, unfolding(crate::specs::Losses::adjusted))]
fn adjusted_input(input: f64, over: f64) -> f64
    ensures { result ≡ adjusted input over }
{
    if input > 0.0 {
        let left = numeric::compare::min_of_2(input - over, input);
        return numeric::compare::max_of_2(0.0, left);
    }
    0.0
}

// Layers, and what the heaters have charged each of them with this step.
#[derive(Clone, Copy)]
pub struct ChargedLayers {
    pub temps: [f64; MAX_LAYERS],
    pub charged: [f64; MAX_LAYERS],
}

// What a heater's losses are worked from, beside the layers as they are mixed: the tank, the heater's set points and its layer, and the layers before the heat.
#[derive(Clone, Copy)]
pub struct HeaterLosses<'a> {
    pub tank: &'a LayeredCylinder,
    pub points: SetPoints,
    pub layer: usize,
    pub before: &'a [f64; MAX_LAYERS],
    pub ghost in_tank: { layer < tank.now.numbers.layers },
}

// What the losses and the limit come to: the adjusted input and the heater's losses.
#[derive(Clone, Copy)]
pub struct LossesAnswer {
    pub adjusted: f64,
    pub losses: f64,
}

impl<'a> HeaterLosses<'a> {
    fn layer_at(&self, k: usize, mixed: &ChargedLayers) -> Layer
        requires { k < max_layers }
        ensures { result ≡ layer_of self.now.tank.now.vol self.now.before.now mixed.now.temps mixed.now.charged k }
    {
        Layer {
            volume: self.tank.vol[k],
            before: self.before[k],
            mixed: mixed.temps[k],
            charged: mixed.charged[k],
        }
    }

    // Added plainly from the heater's layer up.
    fn sum_surplus(&self, mixed: &ChargedLayers) -> f64
        ensures { result ≡ surplus_from self.now.tank.now.numbers self.now.tank.now.vol self.now.points self.now.before.now
            mixed.now.temps mixed.now.charged self.now.layer }
    {
        let c = self.tank.numbers;
        let mut s = 0.0;
        // Kept: a loop over layer numbers, as one over slices would walk four arrays at once.
        for k in self.layer..c.layers {
            s += self.layer_at(k, mixed).surplus(c, self.points);
        }
        s
    }

    // The surplus: 0 unless the heater's layer is over the upper set point.
    #[tactic(auto, unfolding(crate::specs::Losses::surplus))]
    fn energy_surplus(&self, mixed: &ChargedLayers) -> f64
        ensures { result ≡ surplus self.now.tank.now.numbers self.now.tank.now.vol self.now.points self.now.before.now
            mixed.now.temps mixed.now.charged self.now.layer }
    {
        if layer_losses::is_over_upper(self.points, mixed.temps[self.layer]) {
            return self.sum_surplus(mixed);
        }
        0.0
    }

    // Each layer's loss is charged, the layers lose it or are limited, in place; the answer is the heater's losses, over all layers.
    fn lose_heat(&self, layers: &mut ChargedLayers) -> f64
        ensures { HeatLost self.now.tank.now.numbers self.now.tank.now.vol self.now.points self.now.before.now layers.old.temps layers.old.charged
            result layers.new.temps layers.new.charged }
    {
        let c = self.tank.numbers;
        let mut a = Accumulator::start();
        // Kept: a loop over layer numbers, as one over slices would walk four arrays at once.
        for k in 0..c.layers {
            let after = self.layer_at(k, layers).after(c, self.points);
            a = a.add_term(after.lost);
            layers.temps[k] = after.temp;
            layers.charged[k] += after.lost;
        }
        a.total_of()
    }

    // `layers` holds the mixed layers, and at the end those that the losses and the limit leave.
    pub fn calc_temps_after_thermal_losses(
        &self,
        input: f64,
        layers: &mut ChargedLayers,
    ) -> LossesAnswer
        ensures { LossesWorked self.now.tank.now.numbers self.now.tank.now.vol self.now.points self.now.before.now
            layers.old.temps layers.old.charged self.now.layer input result layers.new.temps layers.new.charged }
    {
        let over = self.energy_surplus(layers);
        let adjusted = adjusted_input(input, over);
        let losses = self.lose_heat(layers);
        LossesAnswer { adjusted, losses }
    }
}
