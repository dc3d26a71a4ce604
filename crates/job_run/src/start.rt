// A job before its first record, and a tank's design from records.
ghost use Rattle.std.specs.Prelude.{◌≡◌, ◌<◌};
ghost use Rattle.working_order.specs.Order.{max_heaters};
ghost use Rattle.job_model.specs.Job.{with_heater, start_job};

use job_model::Job;
use storage_tank::Report;
use storage_tank::make::zero_tank;
use tank_model::{Heater, TankDesign};

// One heater more, after those given before it.
pub fn with_heater(d: TankDesign, h: Heater) -> TankDesign
    requires { d.heaters < max_heaters }
    ensures { result ≡ with_heater d h }
{
    let mut r = d;
    r.fitted[d.heaters] = h;
    r.heaters += 1;
    r
}

// A job before its first record: no tank, no heaters, no step.
pub fn start() -> Job
    ensures { result ≡ start_job }
{
    Job {
        before: 0,
        at: 0,
        ended: false,
        has_tank: false,
        steps: 0,
        design: TankDesign::default(),
        tank: zero_tank(),
        report: Report::default(),
    }
}
