// A report, from the arrays that hold it and back.
// Kept: `line_flags_of` and `rounds_of`, and `thermostats_of` of tanks, are a line each of `from_fn`: a generic one of them would be no shorter.
ghost use Rattle.std.specs.Prelude.{◌≡◌, [], ◌∷◌};
ghost use Rattle.lent_tank.specs.Layout.{lines_in};
ghost use Rattle.lent_tank.specs.Flags.{flags_in};
ghost use Rattle.lent_tank.specs.Reports.{report_in, totals_of, figures_of, line_flags_of, rounds_of};

use crate::{THREE_EACH, TWO_EACH};
use storage_tank::Report;
use tank_model::HeaterLine;
use working_order::MAX_HEATERS;

// Adjusted inputs stand first, then energies supplied, then losses.
fn lines_in(
    figures: &[f64; THREE_EACH],
    flags: &[u8; MAX_HEATERS],
    rounds: &[usize; MAX_HEATERS],
) -> [HeaterLine; MAX_HEATERS]
    ensures { result ≡ lines_in figures.now (flags_in flags.now) rounds.now }
{
    let on = crate::flags::flags_in(flags);
    std::array::from_fn(|h| HeaterLine {
        flag: on[h],
        adjusted: figures[h],
        supplied: figures[MAX_HEATERS + h],
        losses: figures[TWO_EACH + h],
        rounds: rounds[h],
    })
}

#[tactic(auto, unfolding(crate::specs::Reports::report_in))]
pub fn report_in(
    totals: &[f64; 4],
    figures: &[f64; THREE_EACH],
    flags: &[u8; MAX_HEATERS],
    rounds: &[usize; MAX_HEATERS],
) -> Report
    ensures { result ≡ report_in totals.now figures.now flags.now rounds.now }
{
    Report {
        energy: totals[0],
        used: totals[1],
        average: totals[2],
        recoverable: totals[3],
        lines: lines_in(figures, flags, rounds),
    }
}

pub fn totals_of(r: &Report) -> [f64; 4]
    ensures { result ≡ totals_of r.now }
{
    [r.energy, r.used, r.average, r.recoverable]
}

pub fn figures_of(lines: &[HeaterLine; MAX_HEATERS]) -> [f64; THREE_EACH]
    ensures { result ≡ figures_of lines.now }
{
    crate::three_each(
        lines,
        |x: HeaterLine| -> [f64; 3]
            ensures { result ≡ x.adjusted ∷ x.supplied ∷ x.losses ∷ [] }
        { [x.adjusted, x.supplied, x.losses] },
    )
}

#[tactic(auto, unfolding(crate::specs::Reports::line_flags_of, numeric::specs::Tabulate::tabulate))]
pub fn line_flags_of(lines: &[HeaterLine; MAX_HEATERS]) -> [bool; MAX_HEATERS]
    ensures { result ≡ line_flags_of lines.now }
{
    std::array::from_fn(|h| lines[h].flag)
}

#[tactic(auto, unfolding(crate::specs::Reports::rounds_of, numeric::specs::Tabulate::tabulate))]
pub fn rounds_of(lines: &[HeaterLine; MAX_HEATERS]) -> [usize; MAX_HEATERS]
    ensures { result ≡ rounds_of lines.now }
{
    std::array::from_fn(|h| lines[h].rounds)
}
