// What is offered, and the layers once they have it.
ghost use Rattle.std.specs.Prelude.{◌≡◌, ◌<◌};
ghost use Rattle.heating.specs.Heat.{offers_to, input_of, heated};

use cylinder::LayeredCylinder;
use mixing::limits::MAX_LAYERS;
use numeric::sum2::Accumulator;

// What one layer is offered, by a heater in it; the others are offered 0.
#[derive(Clone, Copy)]
pub struct LayerOffer {
    pub layer: usize,
    pub energy: f64,
}

impl LayerOffer {
    // What the layer k is offered.
    #[tactic(auto, unfolding(crate::specs::Heat::offers_to))]
    fn to_layer(self, k: usize) -> f64
        ensures { result ≡ offers_to self.layer self.energy k }
    {
        if k == self.layer { self.energy } else { 0.0 }
    }

    // Sum2 of the offers to all n layers. All but one are zeros, which add nothing.
    pub fn energy_input(self, n: usize) -> f64
        requires { self.layer < n }
        ensures { result ≡ input_of n (offers_to self.layer self.energy) }
    {
        Accumulator::start().add_term(self.energy).total_of()
    }
}

// Each layer gains offer / (density × specific heat × layer volume); the Rust adds the heat drawn by other means, a zero.
pub fn calc_temps_with_energy_input(
    tank: &LayeredCylinder,
    offer: LayerOffer,
    temps: &mut [f64; MAX_LAYERS],
)
    ensures { temps.new ≡ heated tank.now.numbers tank.now.vol (offers_to offer.layer offer.energy) temps.old }
{
    let c = tank.numbers;
    for k in 0..c.layers {
        let q = offer.to_layer(k);
        temps[k] += (q + 0.0) / (c.rho * c.cp * tank.vol[k]);
    }
}
