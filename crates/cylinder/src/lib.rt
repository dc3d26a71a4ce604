// The fixed numbers of a cylinder, which no step changes, as the draw and the heating take them, and what is asked of its layers as such.
#![tactic(auto)]

ghost use Rattle.std.specs.Prelude.{◌≡◌, ◌≤◌};
ghost use Rattle.std.specs.List.{list_all};
ghost use Rattle.std.specs.Float.Ieee.Scale.{finite};
ghost use Rattle.mixing.specs.Limits.{max_layers};
ghost use Rattle.cylinder.specs.Layers.{layer_volume, layer_volumes, no_volume, all_finite};

use mixing::limits::MAX_LAYERS;

// 01's numbers: layers, volume (litres), standby loss (kWh per 24 h), density `rho` (kg per litre), specific heat `cp` (kWh/kg.K),
// ambient temperature, and the length of a step (hours).
#[derive(Clone, Copy)]
pub struct Cylinder {
    pub layers: usize,
    pub volume: f64,
    pub standby: f64,
    pub rho: f64,
    pub cp: f64,
    pub ambient: f64,
    pub timestep: f64,
}

impl Cylinder {
    #[tactic(auto, unfolding(crate::specs::Layers::layer_volume))]
    pub fn layer_volume(self) -> f64
        requires { self.layers ≤ max_layers }
        ensures { result ≡ layer_volume self }
    {
        self.volume / numeric::whole::whole_of(self.layers)
    }

    #[tactic(auto, unfolding(crate::specs::Layers::layer_volumes))]
    pub fn layer_volumes(self) -> [f64; MAX_LAYERS]
        requires { self.layers ≤ max_layers }
        ensures { result ≡ layer_volumes self }
    {
        [self.layer_volume(); MAX_LAYERS]
    }
}

// A cylinder with the volume of each layer, whose layers fit their places.
#[derive(Clone, Copy)]
pub struct LayeredCylinder {
    pub numbers: Cylinder,
    pub vol: [f64; MAX_LAYERS],
    pub ghost few_layers: { numbers.layers ≤ max_layers },
}

impl LayeredCylinder {
    pub fn new(numbers: Cylinder) -> LayeredCylinder
        requires { numbers.layers ≤ max_layers }
        ensures numbers { result.numbers ≡ numbers }
        ensures vol { result.vol ≡ layer_volumes numbers }
    {
        LayeredCylinder {
            numbers,
            vol: numbers.layer_volumes(),
        }
    }
}

// Below zero or wide-close to 0: at most the wide tolerance, as 1e-9 of a larger volume is less than that volume.
pub fn is_no_volume(v: f64) -> bool
    ensures { result ≡ no_volume v }
{
    v <= 1e-10
}

// No number of these is infinite, or not a number.
pub fn is_each_finite(xs: &[f64]) -> bool
    ensures { result ≡ list_all finite xs.now }
{
    xs.iter().all(|x| numeric::compare::is_finite(*x))
}

// The first n places.
// Kept: beside `is_each_finite`: 01 asks it of n layers in 32 places, and of a slice each of three callers' proofs would cite the law for its first n.
pub fn are_finite(n: usize, xs: &[f64; MAX_LAYERS]) -> bool
    requires { n ≤ max_layers }
    ensures { result ≡ all_finite n xs.now }
{
    is_each_finite(&xs[..n])
}
