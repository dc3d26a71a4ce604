// What a step's turns noted, told turn by turn in working order.
ghost use Rattle.std.specs.Prelude.{◌≡◌, [], ℕ, ◌≤◌, ◌<◌, get_or, length, map};
ghost use Rattle.working_order.specs.Order.{max_heaters};
ghost use Rattle.job_history.specs.Facts.{step_turns, turns_of};
ghost use Rattle.job_history.specs.Lent.{fact_in, NotedTurns, TurnsTold, StepTold};

use crate::{ToldStep, TurnFact, Turns};
use set_points::SetPoints;
use storage_tank::hot_water::noted_step;
use storage_tank::{Report, StorageTank};
use tank_model::{Step, TurnNotes, order_of_work};
use working_order::MAX_HEATERS;

fn no_turns() -> Turns
    ensures { result ≡ turns_of [] }
{
    Turns::default()
}

// The turn of the heater given as h.
fn fact_at(h: usize, settings: &[SetPoints; MAX_HEATERS], notes: &TurnNotes) -> TurnFact
    requires { h < max_heaters }
    ensures { result ≡ fact_in settings.now notes.now h }
{
    let line = notes.lines[h];
    let course = notes.courses[h];
    TurnFact {
        heater: h,
        points: settings[h],
        start: course.start,
        finish: course.finish,
        ran: course.ran,
        flag: line.flag,
        supplied: line.supplied,
        rounds: line.rounds,
    }
}

// The turns of heaters, in an order.
// Kept: `length ≤ max_heaters`, and each entry below it, asked: facts stand in eight places, and a type for an order would be taken apart at each.
fn facts_in_order(order: &[usize], settings: &[SetPoints; MAX_HEATERS], notes: &TurnNotes) -> Turns
    requires { (length order.now ≤ max_heaters) × ((k : ℕ) → k < length order.now → get_or order.now k 0 < max_heaters) }
    ensures { TurnsTold (map (fact_in settings.now notes.now) order.now) result }
{
    let mut r = no_turns();
    for (k, h) in order.iter().enumerate() {
        r.facts[k] = fact_at(*h, settings, notes);
    }
    r.count = order.len();
    r
}

// The turns of a step from this tank, by what they noted: none where the step was refused before its first.
fn turns_told(t: StorageTank, a: &Step, notes: &TurnNotes) -> Turns
    requires { NotedTurns t a.now notes.now }
    ensures { TurnsTold (step_turns t a.now) result }
{
    if notes.worked == 0 {
        return no_turns();
    }
    let order = order_of_work(&t.fitted[..t.heaters]);
    facts_in_order(&order[..notes.worked], &a.settings, notes)
}

// Steps a tank, for any numbers, and tells the step's turns: none where it is refused before its first.
pub fn told_step(t: StorageTank, report: Report, a: Step) -> ToldStep
    ensures { StepTold t report a result }
{
    let s = noted_step(t, report, a);
    let turns = turns_told(t, &a, &s.notes);
    ToldStep {
        stepped: s.stepped,
        turns,
    }
}
