// A step's work, from checks to end, on what both calls lend.
// Kept: a count beside the heaters' array: a tank may hold any count, which check 2 refuses, and no slice can be cut before it.
ghost use Rattle.std.specs.Prelude.{◌≡◌, cond, replicate};
ghost use Rattle.numeric.specs.Double.{◌⊘◌, zero_f};
ghost use Rattle.numeric.specs.Close.{wide_close};
ghost use Rattle.working_order.specs.Order.{max_heaters};
ghost use Rattle.tank_model.specs.Fixed.{placed_heaters, fixed_by};
ghost use Rattle.tank_model.specs.Work.{zero_line};
ghost use Rattle.step_work.specs.Lent.{state_of, StepWorked};

use cylinder::{Cylinder, LayeredCylinder};
use draw_events::Totals;
use draw_off::cold::Feed;
use heater_turns::TurnState;
use mixing::limits::MAX_LAYERS;
use refusals::Refusal;
use tank_model::{Heater, Step, TurnNotes};
use thermal_losses::ChargedLayers;
use working_order::MAX_HEATERS;

// Weighted sum / volume drawn, or the top layer if that volume is wide-close to 0.
fn average_of(top: f64, t: Totals) -> f64
    ensures { result ≡ cond (wide_close t.drawn zero_f) top (t.weighted ⊘ t.drawn) }
{
    if numeric::close::is_wide_close(t.drawn, 0.0) {
        top
    } else {
        t.weighted / t.drawn
    }
}

// What an accepted step comes to, besides its layers, its flags and what its turns note: what it has drawn, and the two figures of its end.
#[derive(Clone, Copy)]
pub struct StepFigures {
    pub totals: Totals,
    pub average: f64,
    pub recoverable: f64,
}

// A step of the tank with the cylinder c and the first n of these heaters. Accepted, the layers and the heaters' flags are what the step leaves; refused, they
// are as they were. `notes`, whose lines are zeros, takes what its turns note, accepted or refused.
pub fn work_step(
    c: Cylinder,
    n: usize,
    fitted: &[Heater; MAX_HEATERS],
    a: &Step,
    temps: &mut [f64; MAX_LAYERS],
    flags: &mut [bool; MAX_HEATERS],
    notes: &mut TurnNotes,
) -> Result<StepFigures, Refusal>
    requires { notes.old.lines ≡ replicate max_heaters zero_line }
    ensures { StepWorked (fixed_by c (placed_heaters n fitted.now)) (state_of temps.old flags.old) a.now
        result (state_of temps.new flags.new) notes.old notes.new }
{
    notes.worked = 0;
    tank_refusals::calls::step_refusal(c, n, fitted, temps, a)?;
    let tank = LayeredCylinder::new(c);
    // Kept: a literal: `TurnState::new(temps, flags)` would write its fields too, its contract again, and nothing else would call it.
    let mut state = TurnState {
        layers: ChargedLayers {
            temps: [0.0; MAX_LAYERS],
            charged: [0.0; MAX_LAYERS],
        },
        flags: *flags,
        losses: 0.0,
    };
    // Written after it: within the literal they would be copied once more, 82 instructions a step and 512 bytes of stack.
    state.layers.temps = *temps;
    let mut totals = Totals::default();
    let feed = Feed {
        temperature: a.feed,
    };
    let volumes = &a.volumes[..a.events];
    draw_events::event::draw_events(&tank, feed, volumes, &mut state.layers.temps, &mut totals)?;
    let average = average_of(state.layers.temps[c.layers - 1], totals);
    heater_turns::heat_turns(&tank, &fitted[..n], &a.settings, &mut state, notes)?;
    let recoverable = state.losses * 0.75;
    let is_finite = cylinder::is_each_finite(&[average, recoverable]);
    refusals::unless(is_finite, Refusal::NotFinite)?;
    *temps = state.layers.temps;
    *flags = state.flags;
    Ok(StepFigures {
        totals,
        average,
        recoverable,
    })
}
