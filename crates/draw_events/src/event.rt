// One draw event as a whole, and the events of a step in a row.
ghost use Rattle.std.specs.Prelude.{◌≡◌, ◌≤◌};
ghost use Rattle.draw_events.specs.Event.{event_finite, event_of, draw_all};
ghost use Rattle.draw_events.specs.Lent.{drawing_of, drawing_after};
ghost use Rattle.draw_events.specs.Kept.{IsSumOf};

use crate::Totals;
use crate::kept::KeptSum;
use cylinder::LayeredCylinder;
use draw_off::cold::Feed;
use mixing::limits::MAX_LAYERS;
use refusals::Refusal;

// The most draw events that a step has.
pub const MAX_EVENTS: usize = 64;

// The layers, and energy and volume used so far.
#[tactic(auto, unfolding(crate::specs::Event::event_finite))]
fn is_event_finite(tank: &LayeredCylinder, temps: &[f64; MAX_LAYERS], totals: &Totals) -> bool
    ensures { result ≡ event_finite tank.now.numbers temps.now totals.now }
{
    cylinder::are_finite(tank.numbers.layers, temps)
        && cylinder::is_each_finite(&[totals.energy, totals.used])
}

// The draw, the refill and the mixing that a warm feed asks for. An event's energy and volume used are added to the step's when it ends, a refused one's too.
// Kept: `1 ≤ layers`, at both functions: in `LayeredCylinder` it would be asked for draw, refill and losses too, whose public functions may ask no more.
// Kept: tank, temperatures and totals beside one another: the tank is read, and the two that are written are lent by a step that keeps them apart.
pub fn draw_event(
    tank: &LayeredCylinder,
    feed: Feed,
    wanted: f64,
    temps: &mut [f64; MAX_LAYERS],
    totals: &mut Totals,
    kept: &mut KeptSum,
) -> Result<(), Refusal>
    requires { (1 ≤ tank.now.numbers.layers) × IsSumOf tank.now.vol kept.old }
    ensures event { let c = tank.now.numbers in drawing_of temps.new result totals.new
        ≡ drawing_after c (event_of c tank.now.vol feed wanted temps.old totals.old) totals.old }
    ensures keeps { IsSumOf tank.now.vol kept.new }
{
    let mut held = tank.vol;
    let d = draw_off::draw::extract_hot_water(
        tank,
        feed,
        temps,
        wanted,
        totals.weighted,
        totals.drawn,
        &mut held,
    );
    kept.keep(d.untouched, &tank.vol);
    *totals = Totals {
        energy: totals.energy + d.energy,
        used: totals.used + kept.volume_used(tank, &held),
        weighted: d.weighted,
        drawn: d.drawn,
    };
    let mixes = refill::layers::calc_temps_after_extraction(tank, feed, temps, &mut held);
    // A mixing out of order comes before what is not finite.
    if mixes {
        rearrange::rearrange_temperatures(tank.numbers.layers, &tank.vol, temps)?;
    }
    refusals::unless(is_event_finite(tank, temps, totals), Refusal::NotFinite)
}

// The events of these volumes, one after the other; a refused event ends them.
pub fn draw_events(
    tank: &LayeredCylinder,
    feed: Feed,
    volumes: &[f64],
    temps: &mut [f64; MAX_LAYERS],
    totals: &mut Totals,
) -> Result<(), Refusal>
    requires { 1 ≤ tank.now.numbers.layers }
    ensures { drawing_of temps.new result totals.new
        ≡ draw_all tank.now.numbers tank.now.vol feed volumes.now 0 temps.old totals.old }
{
    let mut kept = KeptSum::none();
    for wanted in volumes {
        draw_event(tank, feed, *wanted, temps, totals, &mut kept)?;
    }
    Ok(())
}
