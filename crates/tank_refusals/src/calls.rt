// What make and a step are refused for before they work: the first check that does not pass.
// A check more is a line more in the function that goes through them.
// Kept: a count beside its array in a parameter: a tank and a step may hold any count, which check 2 or 6 refuses, and no slice can be cut before it.
ghost use Rattle.std.specs.Prelude.{◌≡◌, ◌&&◌, ◌≤◌, leb, OnOk};
ghost use Rattle.refusals.specs.Refusals.{number_in};
ghost use Rattle.mixing.specs.Limits.{max_layers};
ghost use Rattle.cylinder.specs.Layers.{all_finite};
ghost use Rattle.draw_events.specs.Lent.{max_events};
ghost use Rattle.working_order.specs.Order.{max_heaters};
ghost use Rattle.tank_model.specs.Fixed.{placed_heaters, fixed_by, fixed_of};
ghost use Rattle.tank_model.specs.FirstRefusal.{first_refusal};
ghost use Rattle.tank_model.specs.Checks.{tank_checks, make_refusal};
ghost use Rattle.tank_refusals.specs.Refusals.{FirstOfStep, RefusedFor};

use crate::checks;
use cylinder::Cylinder;
use mixing::limits::MAX_LAYERS;
use refusals::Refusal;
use tank_model::{Heater, Step, TankDesign};
use working_order::MAX_HEATERS;

// 1 to 5, in order.
#[tactic(auto, using(crate::proofs::FirstRefusal::one_by_one, tank_model::proofs::Order::many_placed))]
fn tank_refusal(
    c: Cylinder,
    n: usize,
    fitted: &[Heater; MAX_HEATERS],
    finite: bool,
) -> Result<(), Refusal>
    ensures { number_in result ≡ first_refusal (tank_checks (fixed_by c (placed_heaters n fitted.now)) finite) }
{
    checks::layers_check(c)?;
    checks::heaters_check(n, 0)?;
    checks::numbers_check(c)?;
    checks::temperatures_check(c, finite)?;
    checks::places_check(&fitted[..n])
}

// 6, 7, and then the set points, of any tank of n heaters.
#[tactic(auto, using(crate::proofs::FirstRefusal::one_by_one))]
fn arguments_refusal(n: usize, a: &Step) -> Result<(), Refusal>
    requires { n ≤ max_heaters }
    ensures { FirstOfStep n a.now (number_in result) }
{
    checks::counts_check(n, a.events, a.entries)?;
    checks::draws_check(a.feed, &a.volumes[..a.events])?;
    checks::settings_check(a.entries, &a.settings)
}

#[tactic(auto, unfolding(tank_model::specs::Checks::make_refusal))]
pub fn make_refusal(m: &TankDesign) -> Result<(), Refusal>
    ensures { number_in result ≡ make_refusal (fixed_of m.now) m.now.initial }
{
    let finite = numeric::compare::is_finite(m.initial);
    tank_refusal(m.cylinder(), m.heaters, &m.fitted, finite)
}

// The layers are no more than there can be, and each is finite.
fn are_stored_finite(n: usize, temps: &[f64; MAX_LAYERS]) -> bool
    ensures { result ≡ (leb n max_layers && all_finite n temps.now) }
{
    n <= MAX_LAYERS && cylinder::are_finite(n, temps)
}

// Of a step of the tank with the cylinder c, these layers, and the first n of these heaters.
pub fn step_refusal(
    c: Cylinder,
    n: usize,
    fitted: &[Heater; MAX_HEATERS],
    temps: &[f64; MAX_LAYERS],
    a: &Step,
) -> Result<(), Refusal>
    ensures refuses { RefusedFor (fixed_by c (placed_heaters n fitted.now)) temps.now a.now (number_in result) }
    ensures within { OnOk result ((1 ≤ c.layers) × (c.layers ≤ max_layers) × (n ≤ max_heaters) × (a.now.events ≤ max_events)) }
{
    let finite = are_stored_finite(c.layers, temps);
    tank_refusal(c, n, fitted, finite)?;
    arguments_refusal(n, a)
}
