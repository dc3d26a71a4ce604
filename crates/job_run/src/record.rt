// One record of a job: the tank made, a heater added, a step run, or the end.
// Kept: `Countable` is asked of each call: a type that kept it would have to hold of the job after the record too, and no call was asked for that.
// Kept: `buf`, `j` and `next` beside one another: `next_record` alone would make a struct of them, and each of three functions would take it apart at once.
ghost use Rattle.std.specs.Prelude.{◌≡◌};
ghost use Rattle.refusals.specs.Refusals.{number_of};
ghost use Rattle.job_model.specs.Job.{Countable, Gives, refused_run, made_run, heater_run, step_run, end_run, run_record, ended_job};

use crate::StepPrinter;
use crate::start::with_heater;
use job_model::{Job, Printed};
use job_records::Record;
use refusals::Refusal;
use storage_tank::StorageTank;
use tank_model::{Heater, Step, TankDesign};
use tank_refusals::checks::heaters_check;

// The job ends, and nothing is printed.
fn end_job(j: Job) -> Job
    ensures { result ≡ ended_job j }
{
    Job { ended: true, ..j }
}

// E, and the job ends.
fn refuse(buf: &mut [u8], j: Job, refusal: Refusal) -> Printed
    requires { Countable j }
    ensures { Gives (refused_run j (number_of refusal)) buf.old buf.new result }
{
    let length = job_lines::lines::refusal_line(buf, refusal.number(), j.before + j.at);
    Printed {
        job: end_job(j),
        length,
    }
}

// A tank with these heaters, or the refusal of making it.
pub fn make_tank(buf: &mut [u8], j: Job, next: usize, design: TankDesign) -> Printed
    requires { Countable j }
    ensures { Gives (made_run j next design) buf.old buf.new result }
{
    let m = StorageTank::new(design);
    match m.outcome {
        Ok(()) => {
            let job = Job {
                at: next,
                has_tank: true,
                design,
                tank: m.tank,
                ..j
            };
            Printed { job, length: 0 }
        }
        Err(refusal) => refuse(buf, j, refusal),
    }
}

// A heater more; a ninth is 2.
pub fn add_heater(buf: &mut [u8], j: Job, next: usize, h: Heater) -> Printed
    requires { Countable j }
    ensures { Gives (heater_run j next h) buf.old buf.new result }
{
    match heaters_check(j.design.heaters, 1) {
        Ok(()) => make_tank(buf, j, next, with_heater(j.design, h)),
        Err(refusal) => refuse(buf, j, refusal),
    }
}

// A step, refused or not: what is printed of it, and the job goes on.
fn run_step<P: StepPrinter>(buf: &mut [u8], j: Job, next: usize, a: Step) -> Printed
    requires { Countable j }
    ensures { Gives (step_run P.text j next a) buf.old buf.new result }
{
    let p = P::print_step(buf, j.steps, j.tank, j.report, a);
    let job = Job {
        at: next,
        steps: j.steps + 1,
        tank: p.stepped.tank,
        report: p.stepped.report,
        ..j
    };
    Printed {
        job,
        length: p.length,
    }
}

// No record: the input's end, or the reader's refusal.
pub fn end_or_refuse(buf: &mut [u8], size: usize, j: Job, refusal: Refusal) -> Printed
    requires { Countable j }
    ensures { Gives (end_run size j (number_of refusal)) buf.old buf.new result }
{
    if j.at != size || j.before + j.at == 0 {
        return refuse(buf, j, refusal);
    }
    Printed {
        job: end_job(j),
        length: 0,
    }
}

// The next record of a job: its lines into the lent buffer, and the job after it.
pub fn next_record<P: StepPrinter>(buf: &mut [u8], bytes: &[u8], j: Job) -> Printed
    requires { Countable j }
    ensures { Gives (run_record P.text bytes.now j) buf.old buf.new result }
{
    let r = job_reader::reader::read_at(bytes, j.at, j.came_before());
    match r.content {
        Ok(Record::Tank(t)) => make_tank(buf, j, r.next, TankDesign::from(t)),
        Ok(Record::Heater(h)) => add_heater(buf, j, r.next, h),
        Ok(Record::Step(a)) => run_step::<P>(buf, j, r.next, a),
        Err(refusal) => end_or_refuse(buf, bytes.len(), j, refusal),
    }
}
