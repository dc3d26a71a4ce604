// A step's arguments, from the arrays that hold them.
ghost use Rattle.std.specs.Prelude.{◌≡◌};
ghost use Rattle.lent_tank.specs.Layout.{points_in, settings_in};
ghost use Rattle.lent_tank.specs.Flags.{flags_in};
ghost use Rattle.lent_tank.specs.Steps.{step_in};

use crate::TWO_EACH;
use draw_events::event::MAX_EVENTS;
use set_points::SetPoints;
use tank_model::Step;
use working_order::MAX_HEATERS;

#[tactic(auto, unfolding(crate::specs::Layout::points_in))]
fn points_in(lower: Option<f64>, upper: Option<f64>) -> SetPoints
    ensures { result ≡ points_in lower upper }
{
    match (lower, upper) {
        (None, None) => SetPoints::Neither,
        (None, Some(u)) => SetPoints::Upper(u),
        (Some(l), None) => SetPoints::Lower(l),
        (Some(l), Some(u)) => SetPoints::Both(l, u),
    }
}

// The lower set points stand first, then the upper ones. One that is not present is not looked at.
pub fn settings_in(present: &[u8; TWO_EACH], points: &[f64; TWO_EACH]) -> [SetPoints; MAX_HEATERS]
    ensures { result ≡ settings_in (flags_in present.now) points.now }
{
    let there = crate::flags::flags_in(present);
    std::array::from_fn(|h| {
        points_in(
            there[h].then_some(points[h]),
            there[MAX_HEATERS + h].then_some(points[MAX_HEATERS + h]),
        )
    })
}

// It is inlined at both calls: a step that is handed back as it is would be copied once more.
#[inline(always)]
pub fn step_in(
    feed: f64,
    asked: &[usize; 2],
    volumes: &[f64; MAX_EVENTS],
    present: &[u8; TWO_EACH],
    points: &[f64; TWO_EACH],
) -> Step
    ensures { result ≡ step_in feed asked.now volumes.now present.now points.now }
{
    Step {
        feed,
        events: asked[0],
        volumes: *volumes,
        entries: asked[1],
        settings: settings_in(present, points),
    }
}
