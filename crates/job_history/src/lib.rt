// Why a heater is on: the turns of a job's steps, and a line for each.
#![tactic(auto)]

pub mod facts;
pub mod lines;
pub mod record;

use set_points::SetPoints;
use storage_tank::Stepped;
use working_order::MAX_HEATERS;

// What is told of a turn: whose it was, its set points, its thermostat layer where it began and where it ended, whether the heater ran on, its flag at the
// end, what it supplied, and the rounds of its mixing (0 where that was refused).
// Kept: named one by one, though a turn's course and a report's line have six of them: a turn's line tells these eight, and no others of either.
#[derive(Clone, Copy, Default)]
pub struct TurnFact {
    pub heater: usize,
    pub points: SetPoints,
    pub start: f64,
    pub finish: f64,
    pub ran: bool,
    pub flag: bool,
    pub supplied: f64,
    pub rounds: usize,
}

// The turns of a step in working order, as far as it got; the places past their count are of no turn.
// Kept: a count beside an array, by the rule that nothing is on a heap.
#[derive(Clone, Copy, Default)]
pub struct Turns {
    pub count: usize,
    pub facts: [TurnFact; MAX_HEATERS],
}

// What a step answers, and its turns.
#[derive(Clone, Copy)]
pub struct ToldStep {
    pub stepped: Stepped,
    pub turns: Turns,
}
