// One turn of a heater: from its switch-on to its switch-off in one step, with that step's set points.
ghost use Rattle.std.specs.Prelude.{◌≡◌, ◌&&◌, ◌<◌};
ghost use Rattle.std.specs.Float.Ieee.Scale.{finite};
ghost use Rattle.cylinder.specs.Layers.{all_finite};
ghost use Rattle.immersion_heater.specs.Turn.{outcome_if, turn, TurnAnswered};

use cylinder::LayeredCylinder;
use heating::heat::LayerOffer;
use mixing::limits::MAX_LAYERS;
use refusals::Refusal;
use set_points::SetPoints;
use thermal_losses::ChargedLayers;

// An immersion heater in a cylinder: its rated power (kW), its layer and its thermostat's.
#[derive(Clone, Copy)]
pub struct Immersion {
    pub rated: f64,
    pub layer: usize,
    pub thermostat: usize,
}

// What a turn came to: a refusal (9 or 10) where it ends the step; whether the heater ran on; its flag and its figures.
// Kept: flag and figures beside the outcome, as what is noted of a step has them of a refused turn too; those of refusal 9 are not numbers.
// Kept: the five fields of tank_model's `HeaterLine` by name: that is the report's line, of a crate above, and one place alone (`heat_turn`) copies them.
#[derive(Clone, Copy)]
pub struct TurnAnswer {
    pub outcome: Result<(), Refusal>,
    pub ran: bool,
    pub flag: bool,
    pub adjusted: f64,
    pub supplied: f64,
    pub losses: f64,
    pub rounds: usize,
}

// Refused where a layer or a figure is not finite.
fn finite_outcome(
    tank: &LayeredCylinder,
    temps: &[f64; MAX_LAYERS],
    adjusted: f64,
    supplied: f64,
    losses: f64,
) -> Result<(), Refusal>
    ensures { result ≡ outcome_if (all_finite tank.now.numbers.layers temps.now && finite adjusted && finite supplied && finite losses) }
{
    refusals::unless(
        cylinder::are_finite(tank.numbers.layers, temps)
            && cylinder::is_each_finite(&[adjusted, supplied, losses]),
        Refusal::NotFinite,
    )
}

// `layers` holds those on which the turn begins, and at the end those that it leaves. A mixing out of order ends the turn: refusal 9, figures that are not
// numbers, and the layers as they were.
pub fn turn(
    tank: &LayeredCylinder,
    h: Immersion,
    p: SetPoints,
    flag: bool,
    layers: &mut ChargedLayers,
) -> TurnAnswer
    requires { (h.layer < tank.now.numbers.layers) × (h.thermostat < tank.now.numbers.layers) }
    ensures { TurnAnswered tank.now.numbers (turn tank.now.numbers tank.now.vol h p layers.old.temps layers.old.charged flag)
        result layers.new.temps layers.new.charged }
{
    let energy = h.rated * tank.numbers.timestep;
    let start = layers.temps[h.thermostat];
    let on = heater_switches::determine_heat_source_switch_on(p, start, flag);
    let offer = LayerOffer {
        layer: h.layer,
        energy: crate::offer::potential_energy_input(on, energy),
    };
    match heating::final_temps::calc_final_temps(tank, p, offer, layers) {
        Ok(heat) => {
            let done = heat.figures;
            let supplied = crate::supply::demand_energy(done.adjusted, energy);
            let finish = layers.temps[h.thermostat];
            let off = heater_switches::determine_heat_source_switch_off(p, finish, on);
            TurnAnswer {
                outcome: finite_outcome(tank, &layers.temps, done.adjusted, supplied, done.losses),
                ran: on,
                flag: off,
                adjusted: done.adjusted,
                supplied,
                losses: done.losses,
                rounds: heat.rounds,
            }
        }
        Err(refusal) => TurnAnswer {
            outcome: Err(refusal),
            ran: on,
            flag: on,
            adjusted: f64::NAN,
            supplied: f64::NAN,
            losses: f64::NAN,
            rounds: 0,
        },
    }
}
