// The call step: `StorageTank::demand_hot_water`.
ghost use Rattle.std.specs.Prelude.{◌≡◌};
ghost use Rattle.storage_tank.specs.Calls.{stepped};
ghost use Rattle.storage_tank.specs.Answers.{accepted_step, StepNoted};

use crate::{NotedStep, Report, Stepped, StorageTank};
use step_work::work::StepFigures;
use tank_model::{HeaterLine, Step};
use working_order::MAX_HEATERS;

// The answer of an accepted step: the tank as it was left, and its report.
fn accepted(tank: StorageTank, w: StepFigures, lines: [HeaterLine; MAX_HEATERS]) -> Stepped
    ensures { result ≡ accepted_step tank w lines }
{
    Stepped {
        outcome: Ok(()),
        tank,
        report: Report::of(w, lines),
    }
}

// The step, with what its turns noted, refused or not.
pub fn noted_step(t: StorageTank, report: Report, a: Step) -> NotedStep
    ensures { StepNoted t report a result }
{
    let mut tank = t;
    let mut notes = heater_turns::no_notes();
    let worked = step_work::work::work_step(
        tank.cylinder(),
        tank.heaters,
        &t.fitted,
        &a,
        &mut tank.temps,
        &mut tank.flags,
        &mut notes,
    );
    let stepped = match worked {
        Ok(w) => accepted(tank, w, notes.lines),
        Err(refusal) => Stepped {
            outcome: Err(refusal),
            tank,
            report,
        },
    };
    NotedStep { stepped, notes }
}

impl StorageTank {
    // Steps the tank, for any numbers. Accepted, the answer is the stepped tank with its report; refused, 01's refusal with the tank and the report as they
    // were handed in.
    pub fn demand_hot_water(self, report: Report, a: Step) -> Stepped
        ensures { result ≡ stepped self report a }
    {
        noted_step(self, report, a).stepped
    }
}
