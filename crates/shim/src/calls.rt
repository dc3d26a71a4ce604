// The exported calls. Each answers the number of 01's refusal, 0 where it is accepted. A refused step and a refused mix leave what was lent as it was.
// Flags are lent as bytes (`flags`), since C can lend any byte: each call reads them as one rule says, and writes 1 or 0 where it writes.
// Kept: C's names and signatures, with as many parameters as a tank, a report and a step have arrays.
ghost use Rattle.std.specs.Prelude.{◌≡◌, [], ◌∷◌};
ghost use Rattle.mixing.specs.Mix.{mix_number, mix_rounds, mix_layers};
ghost use Rattle.storage_tank.specs.Calls.{made, stepped};
ghost use Rattle.lent_tank.specs.Tanks.{design_in, tank_in, TankWritten};
ghost use Rattle.lent_tank.specs.Reports.{report_in, ReportWritten};
ghost use Rattle.lent_tank.specs.Steps.{step_in};
ghost use Rattle.shim.specs.Answers.{MakeAnswered, StepAnswered, StepLeft};

use draw_events::event::MAX_EVENTS;
use lent_tank::{THREE_EACH, TWO_EACH};
use mixing::limits::MAX_LAYERS;
use refusals::number_in;
use storage_tank::{Report, StorageTank};
use working_order::MAX_HEATERS;

// Mixes layers of one volume. `rounds` is how many were run, 0 where refused.
#[unsafe(no_mangle)]
pub extern "C" fn huszmago_mix(layers: &mut [f64], layer_volume: f64, rounds: &mut [usize; 1]) -> u8
    ensures number { result ≡ mix_number layers.old layer_volume }
    ensures leaves { layers.new ≡ mix_layers layers.old layer_volume }
    ensures runs { rounds.new ≡ mix_rounds layers.old layer_volume ∷ [] }
{
    let mixed = rearrange::mix::mix(layers, layer_volume);
    *rounds = [mixed.unwrap_or(0)];
    number_in(&mixed)
}

// All of a tank but its heaters' numbers.
fn put_tank(
    t: &StorageTank,
    counts: &mut [usize; 2],
    numbers: &mut [f64; 6],
    temps: &mut [f64; MAX_LAYERS],
    thermostats: &mut [u8; MAX_HEATERS],
    flags: &mut [u8; MAX_HEATERS],
)
    ensures { TankWritten t.now counts.new numbers.new temps.new thermostats.new flags.new }
{
    *counts = lent_tank::tanks::counts_of(t);
    *numbers = lent_tank::tanks::numbers_of(t);
    *temps = t.temps;
    *thermostats = lent_tank::flags::bytes_of(&lent_tank::tanks::thermostats_of(&t.fitted));
    *flags = lent_tank::flags::bytes_of(&t.flags);
}

fn put_report(
    r: &Report,
    totals: &mut [f64; 4],
    figures: &mut [f64; THREE_EACH],
    flags: &mut [u8; MAX_HEATERS],
    rounds: &mut [usize; MAX_HEATERS],
)
    ensures { ReportWritten r.now totals.new figures.new flags.new rounds.new }
{
    *totals = lent_tank::reports::totals_of(r);
    *figures = lent_tank::reports::figures_of(&r.lines);
    *flags = lent_tank::flags::bytes_of(&lent_tank::reports::line_flags_of(&r.lines));
    *rounds = lent_tank::reports::rounds_of(&r.lines);
}

// Makes a tank from the counts, numbers and heaters lent, and writes it in all its arrays: where refused, a tank of no layers, no heaters and zeros. The flags
// lent are not read.
#[unsafe(no_mangle)]
pub extern "C" fn huszmago_make(
    initial: f64,
    counts: &mut [usize; 2],
    numbers: &mut [f64; 6],
    temps: &mut [f64; MAX_LAYERS],
    heaters: &mut [f64; THREE_EACH],
    thermostats: &mut [u8; MAX_HEATERS],
    flags: &mut [u8; MAX_HEATERS],
) -> u8
    ensures { MakeAnswered
        (made (design_in counts.old numbers.old initial heaters.old thermostats.old))
        result
        counts.new numbers.new temps.new heaters.new thermostats.new flags.new }
{
    let design = lent_tank::tanks::design_in(counts, numbers, initial, heaters, thermostats);
    let a = StorageTank::new(design);
    put_tank(&a.tank, counts, numbers, temps, thermostats, flags);
    *heaters = lent_tank::tanks::heaters_of(&a.tank.fitted);
    number_in(&a.outcome)
}

// Steps the tank that the first six arrays hold. Accepted, the layers, the flags and the report are written: the rest of a tank stays, each byte of
// `thermostats` as it was lent. Refused, nothing is written, and each byte of the flags stays too.
#[unsafe(no_mangle)]
pub extern "C" fn huszmago_step(
    counts: &mut [usize; 2],
    numbers: &mut [f64; 6],
    temps: &mut [f64; MAX_LAYERS],
    heaters: &mut [f64; THREE_EACH],
    thermostats: &mut [u8; MAX_HEATERS],
    flags: &mut [u8; MAX_HEATERS],
    totals: &mut [f64; 4],
    figures: &mut [f64; THREE_EACH],
    line_flags: &mut [u8; MAX_HEATERS],
    rounds: &mut [usize; MAX_HEATERS],
    feed: f64,
    asked: &[usize; 2],
    volumes: &[f64; MAX_EVENTS],
    present: &[u8; TWO_EACH],
    points: &[f64; TWO_EACH],
) -> u8
    ensures { StepLeft
        (stepped
        (tank_in counts.old numbers.old temps.old heaters.old thermostats.old flags.old)
        (report_in totals.old figures.old line_flags.old rounds.old)
        (step_in feed asked.now volumes.now present.now points.now))
        heaters.old thermostats.old flags.old line_flags.old
        result
        counts.new numbers.new temps.new heaters.new thermostats.new flags.new
        totals.new figures.new line_flags.new rounds.new }
{
    let c = lent_tank::tanks::cylinder_in(counts, numbers);
    let fitted = lent_tank::tanks::fitted_in(heaters, thermostats);
    let a = lent_tank::steps::step_in(feed, asked, volumes, present, points);
    let mut on = lent_tank::flags::flags_in(flags);
    let mut notes = heater_turns::no_notes();
    let worked = step_work::work::work_step(c, counts[1], &fitted, &a, temps, &mut on, &mut notes);
    match worked {
        Ok(w) => {
            *flags = lent_tank::flags::bytes_of(&on);
            put_report(
                &Report::of(w, notes.lines),
                totals,
                figures,
                line_flags,
                rounds,
            );
            0
        }
        Err(refusal) => refusal.number(),
    }
}

// The same through the method: a tank, a report and a step are made of what is lent and passed by value, and what the call hands back is written in all the
// arrays, refused or not, but for the heaters' numbers, which no step changes. So every byte of a flag is 0 or 1 after it, whatever was lent.
#[unsafe(no_mangle)]
pub extern "C" fn huszmago_demand_hot_water(
    counts: &mut [usize; 2],
    numbers: &mut [f64; 6],
    temps: &mut [f64; MAX_LAYERS],
    heaters: &mut [f64; THREE_EACH],
    thermostats: &mut [u8; MAX_HEATERS],
    flags: &mut [u8; MAX_HEATERS],
    totals: &mut [f64; 4],
    figures: &mut [f64; THREE_EACH],
    line_flags: &mut [u8; MAX_HEATERS],
    rounds: &mut [usize; MAX_HEATERS],
    feed: f64,
    asked: &[usize; 2],
    volumes: &[f64; MAX_EVENTS],
    present: &[u8; TWO_EACH],
    points: &[f64; TWO_EACH],
) -> u8
    ensures { StepAnswered
        (stepped
        (tank_in counts.old numbers.old temps.old heaters.old thermostats.old flags.old)
        (report_in totals.old figures.old line_flags.old rounds.old)
        (step_in feed asked.now volumes.now present.now points.now))
        heaters.old
        result
        counts.new numbers.new temps.new heaters.new thermostats.new flags.new
        totals.new figures.new line_flags.new rounds.new }
{
    let t = lent_tank::tanks::tank_in(counts, numbers, temps, heaters, thermostats, flags);
    let r = lent_tank::reports::report_in(totals, figures, line_flags, rounds);
    let a = lent_tank::steps::step_in(feed, asked, volumes, present, points);
    let s = t.demand_hot_water(r, a);
    put_tank(&s.tank, counts, numbers, temps, thermostats, flags);
    put_report(&s.report, totals, figures, line_flags, rounds);
    number_in(&s.outcome)
}
