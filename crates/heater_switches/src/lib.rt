// The two switches of a heater. `t` is the temperature of the thermostat layer.
#![tactic(auto)]

ghost use Rattle.std.specs.Prelude.{◌≡◌, ◌||◌};
ghost use Rattle.std.specs.Float.Ieee.{lt};
ghost use Rattle.numeric.specs.Close.{narrow_close};
ghost use Rattle.heater_switches.specs.Switch.{at_or_under_lower, reached, switch_on, switch_off};

use set_points::SetPoints;

// Below or narrow-close.
// Kept: a line, as `does_give_all` of draw_off: each is named for what 01 says by it, and one for both only for how it is worked.
fn is_at_or_under(t: f64, lower: f64) -> bool
    ensures { result ≡ (lt t lower || narrow_close t lower) }
{
    t < lower || numeric::close::is_narrow_close(t, lower)
}

#[tactic(auto, using(crate::proofs::Given::under_cases))]
fn is_at_or_under_lower(p: SetPoints, t: f64) -> bool
    ensures { result ≡ at_or_under_lower p t }
{
    match p.lower() {
        Some(l) => is_at_or_under(t, l),
        None => false,
    }
}

// Above or narrow-close.
// Kept: a line, as `does_join` of plain_mixing: each is named for what 01 says by it, and one for both only for how it is worked.
fn is_reached(t: f64, upper: f64) -> bool
    ensures { result ≡ reached t upper }
{
    t > upper || numeric::close::is_narrow_close(t, upper)
}

// No upper set point: off; else at or under a lower set point: on; else unchanged.
#[tactic(auto, using(set_points::proofs::Given::upper_is_some), unfolding(crate::specs::Switch::switch_on))]
pub fn determine_heat_source_switch_on(p: SetPoints, t: f64, flag: bool) -> bool
    ensures { result ≡ switch_on p t flag }
{
    p.upper().is_some() && (is_at_or_under_lower(p, t) || flag)
}

// Off with no upper set point, or with it reached; else unchanged.
#[tactic(auto, using(set_points::proofs::Given::upper_cases), unfolding(crate::specs::Switch::switch_off, crate::specs::Switch::upper_missing_or_reached))]
pub fn determine_heat_source_switch_off(p: SetPoints, t: f64, flag: bool) -> bool
    ensures { result ≡ switch_off p t flag }
{
    match p.upper() {
        Some(u) => flag && !is_reached(t, u),
        None => false,
    }
}
