// The draw events of a step: the draw, the refill, and the mixing of an event that warms the tank from below.
#![tactic(auto)]

pub mod event;
pub mod kept;

// What a step has drawn so far: the energy withdrawn (kWh), the volume used (litres), the temperatures weighted by volume, and the volume drawn.
// By default nothing is drawn, as before the first event.
#[derive(Clone, Copy, Default)]
pub struct Totals {
    pub energy: f64,
    pub used: f64,
    pub weighted: f64,
    pub drawn: f64,
}
