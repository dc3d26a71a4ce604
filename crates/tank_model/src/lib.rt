// What a tank is made from, what a step asks of it, and what it reports of a heater.
// The work of a step, and of a list of calls, is defined over these (`specs/`).
// A count may be any number, which check 2 or 6 refuses; what is past it in an array is not looked at.
// Kept: in a record a count stands beside its array: nothing is on a heap, and 01 prescribes arrays of the most there can be.
#![tactic(auto)]

ghost use Rattle.std.specs.Prelude.{◌≡◌, ℕ, ◌≤◌, ◌<◌, get_or, length};
ghost use Rattle.mixing.specs.Limits.{max_layers};
ghost use Rattle.working_order.specs.Order.{max_heaters, position_in};
ghost use Rattle.tank_model.specs.Fixed.{placed, no_heater, immersed, fixed_of};
ghost use Rattle.tank_model.specs.Order.{InOrder};

use cylinder::Cylinder;
use draw_events::event::MAX_EVENTS;
use immersion_heater::turn::Immersion;
use set_points::SetPoints;
use working_order::MAX_HEATERS;

// An immersion heater: its rated power (kW), its position, from 0 at the bottom of the tank to 1 in its lid, and its thermostat's, where it has one of its own.
#[derive(Clone, Copy, Default)]
pub struct Heater {
    pub rated: f64,
    pub position: f64,
    pub thermostat: Option<f64>,
}

impl Heater {
    // Where the thermostat sits: with its heater, if it has no position of its own.
    pub fn thermostat_position(self) -> f64
        ensures { result ≡ (placed self).thermostat }
    {
        self.thermostat.unwrap_or(self.position)
    }

    // The heater with the layers that a step finds for it in a tank of n.
    // Kept: `n ≤ max_layers` asked, as finding a layer asks that doubles can count the layers; a tank that is worked has 32 at most, by 01.
    pub fn immersed(self, n: usize) -> Immersion
        requires { n ≤ max_layers }
        ensures finds { result ≡ immersed n (placed self) }
        ensures below { 1 ≤ n → (result.layer < n) × (result.thermostat < n) }
    {
        Immersion {
            rated: self.rated,
            layer: numeric::whole::layer_of(self.position, n),
            thermostat: numeric::whole::layer_of(self.thermostat_position(), n),
        }
    }
}

// The position of the heater h, and zero past the last.
fn position_at(fitted: &[Heater], h: usize) -> f64
    ensures { h < length fitted.now → result ≡ (get_or fitted.now h no_heater).position }
{
    match fitted.get(h) {
        Some(x) => x.position,
        None => 0.0,
    }
}

fn positions(fitted: &[Heater]) -> [f64; MAX_HEATERS]
    ensures { (h : ℕ) → h < length fitted.now → h < max_heaters → position_in result h ≡ (get_or fitted.now h no_heater).position }
{
    std::array::from_fn(|h| position_at(fitted, h))
}

// The places of the heaters, in the order in which a step works them, and zeros past them.
// Kept: `length ≤ max_heaters` asked, and `below` a clause of its own: the order is an array of eight places, and each entry is taken out to index one.
pub fn order_of_work(fitted: &[Heater]) -> [usize; MAX_HEATERS]
    requires { length fitted.now ≤ max_heaters }
    ensures order { InOrder (length fitted.now) fitted.now result }
    ensures below { (k : ℕ) → k < length fitted.now → get_or result k 0 < length fitted.now }
{
    working_order::working_order(&positions(fitted)[..fitted.len()])
}

// What a tank is made from. Volume is in litres, `standby` in kWh per 24 h, the density `rho` in kg per litre, the specific heat `cp` in kWh/kg.K,
// the step length in hours.
#[derive(Clone, Copy, Default)]
pub struct TankDesign {
    pub layers: usize,
    pub volume: f64,
    pub standby: f64,
    pub initial: f64,
    pub rho: f64,
    pub cp: f64,
    pub ambient: f64,
    pub timestep: f64,
    pub heaters: usize,
    pub fitted: [Heater; MAX_HEATERS],
}

impl TankDesign {
    // The numbers of its cylinder.
    // Kept: no cylinder nested in the design: 01's tank has these fields itself, and make would take a nested one apart to copy them there.
    pub fn cylinder(&self) -> Cylinder
        ensures { result ≡ (fixed_of self.now).cylinder }
    {
        Cylinder {
            layers: self.layers,
            volume: self.volume,
            standby: self.standby,
            rho: self.rho,
            cp: self.cp,
            ambient: self.ambient,
            timestep: self.timestep,
        }
    }
}

// A step: the feed temperature, the volumes of its draw events (litres), and the set points of each heater, as given.
#[derive(Clone, Copy)]
pub struct Step {
    pub feed: f64,
    pub events: usize,
    pub volumes: [f64; MAX_EVENTS],
    pub entries: usize,
    pub settings: [SetPoints; MAX_HEATERS],
}

// What a step reports of a heater: its flag, its adjusted input, energy supplied and losses (kWh), and the rounds of its mixing.
#[derive(Clone, Copy, Default)]
pub struct HeaterLine {
    pub flag: bool,
    pub adjusted: f64,
    pub supplied: f64,
    pub losses: f64,
    pub rounds: usize,
}

// What the history tells of a heater's turn besides its line: its thermostat layer where the turn began and where it ended, and whether it ran on.
#[derive(Clone, Copy, Default)]
pub struct TurnCourse {
    pub start: f64,
    pub finish: f64,
    pub ran: bool,
}

// What a step's turns note as they go, also where the step is refused: each heater's line and course in its place, as given, and how many had their turn.
// Kept: `lines` and `courses` apart: 01's report has the lines as an array of their own, into which they go as they stand.
#[derive(Clone, Copy, Default)]
pub struct TurnNotes {
    pub lines: [HeaterLine; MAX_HEATERS],
    pub courses: [TurnCourse; MAX_HEATERS],
    pub worked: usize,
}
