// The heaters' turns of a step, in working order, each on the layers left by the one before.
// Kept: `length ≤ max_heaters` and `1 ≤ layers` asked: a turn notes into one of eight places, and reads a layer. Checks 1 and 2 come first.
#![tactic(auto)]

ghost use Rattle.std.specs.Prelude.{◌≡◌, ℕ, ◌≤◌, ◌<◌, length, get_or};
ghost use Rattle.refusals.specs.Refusals.{number_in};
ghost use Rattle.working_order.specs.Order.{max_heaters};
ghost use Rattle.tank_model.specs.Order.{working_order};
ghost use Rattle.heater_turns.specs.Notes.{no_notes};
ghost use Rattle.heater_turns.specs.Lent.{immersion, fixed_lent, heating_in, turn_from, uncounted, TurnWorked, TurnsWorked};

use cylinder::LayeredCylinder;
use refusals::Refusal;
use set_points::SetPoints;
use tank_model::{Heater, HeaterLine, TurnCourse, TurnNotes};
use thermal_losses::ChargedLayers;
use working_order::MAX_HEATERS;

// What heating carries from turn to turn: the layers and what each of them was charged with, the heaters' flags, and their losses so far.
#[derive(Clone, Copy)]
pub struct TurnState {
    pub layers: ChargedLayers,
    pub flags: [bool; MAX_HEATERS],
    pub losses: f64,
}

// What is noted before the first turn.
// Kept: beside the derived default, of which it says once for both of its callers that all of it is zeros.
pub fn no_notes() -> TurnNotes
    ensures { result ≡ no_notes }
{
    TurnNotes::default()
}

// The turn of the heater x, given as h: what it leaves is written, and noted in its place, also where it is refused.
// Kept: tank, state and notes beside one another: the tank is read, the state ends with the step, and the notes are the caller's, refused or not.
fn heat_turn(
    tank: &LayeredCylinder,
    x: Heater,
    h: usize,
    p: SetPoints,
    state: &mut TurnState,
    notes: &mut TurnNotes,
) -> Result<(), Refusal>
    requires { (1 ≤ tank.now.numbers.layers) × (h < max_heaters) × (notes.old.worked < max_heaters) }
    ensures { let c = tank.now.numbers in let s = heating_in state.old notes.old in
        TurnWorked c (turn_from c tank.now.vol (immersion c.layers x) h p s) s notes.old
        (number_in result) (heating_in state.new notes.new) notes.new }
{
    let i = x.immersed(tank.numbers.layers);
    let start = state.layers.temps[i.thermostat];
    let u = immersion_heater::turn::turn(tank, i, p, state.flags[h], &mut state.layers);
    state.flags[h] = u.flag;
    state.losses += u.losses;
    // Kept: copied one by one: the answer has them beside its refusal and `ran`, and a line, the report's, is made of them in this place alone.
    notes.lines[h] = HeaterLine {
        flag: u.flag,
        adjusted: u.adjusted,
        supplied: u.supplied,
        losses: u.losses,
        rounds: u.rounds,
    };
    notes.courses[h] = TurnCourse {
        start,
        finish: state.layers.temps[i.thermostat],
        ran: u.ran,
    };
    notes.worked += 1;
    u.outcome
}

// The turns of the heaters that `order` names, up to the one that ends the step.
// Kept: each entry of `order` below the count by a contract: it indexes two arrays here, and a type for it would be taken apart at both.
fn heat_in_order(
    tank: &LayeredCylinder,
    fitted: &[Heater],
    settings: &[SetPoints; MAX_HEATERS],
    order: &[usize],
    state: &mut TurnState,
    notes: &mut TurnNotes,
) -> Result<(), Refusal>
    requires { (1 ≤ tank.now.numbers.layers) × (length fitted.now ≤ max_heaters) × (notes.old.worked ≡ 0)
        × (length order.now ≤ max_heaters) × ((k : ℕ) → k < length order.now → get_or order.now k 0 < length fitted.now) }
    ensures { TurnsWorked (fixed_lent tank.now.numbers tank.now.vol (length fitted.now) fitted.now) settings.now order.now
        (heating_in state.old notes.old) notes.old
        (number_in result) (heating_in state.new notes.new) notes.new }
{
    for h in order {
        heat_turn(tank, fitted[*h], *h, settings[*h], state, notes)?;
    }
    Ok(())
}

// The turns of the heaters in the order of work, up to the one that ends the step. `notes` takes what they note, whatever it has for other heaters.
pub fn heat_turns(
    tank: &LayeredCylinder,
    fitted: &[Heater],
    settings: &[SetPoints; MAX_HEATERS],
    state: &mut TurnState,
    notes: &mut TurnNotes,
) -> Result<(), Refusal>
    requires { (1 ≤ tank.now.numbers.layers) × (length fitted.now ≤ max_heaters) }
    ensures { let f = fixed_lent tank.now.numbers tank.now.vol (length fitted.now) fitted.now in
        TurnsWorked f settings.now (working_order f)
        (heating_in state.old notes.old) (uncounted notes.old)
        (number_in result) (heating_in state.new notes.new) notes.new }
{
    notes.worked = 0;
    let order = tank_model::order_of_work(fitted);
    let order = &order[..fitted.len()];
    heat_in_order(tank, fitted, settings, order, state, notes)
}
