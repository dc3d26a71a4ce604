// The checks of make and of a step, 1 to 7, and 12, 8 and 13 of set points, one function each, by its definition's name: it refuses by its number, or passes.
// A check of several places refuses for the first that does not pass.
ghost use Rattle.std.specs.Prelude.{◌≡◌, ◌&&◌, ℕ, ◌+◌, ◌≤◌, get_or, length};
ghost use Rattle.refusals.specs.Refusals.{number_in};
ghost use Rattle.working_order.specs.Order.{max_heaters};
ghost use Rattle.tank_model.specs.Fixed.{placed, placed_heaters};
ghost use Rattle.tank_model.specs.FirstRefusal.{first_among};
ghost use Rattle.tank_model.specs.Checks.{not_negative, is_position};
ghost use Rattle.tank_model.specs.Checks.{layers_check, heaters_check, numbers_check, temperatures_check, heater_check, places_check};
ghost use Rattle.tank_model.specs.Checks.{counts_check, feed_check, volume_check, volumes_check, draws_check, points_check, settings_check};

use cylinder::Cylinder;
use draw_events::event::MAX_EVENTS;
use mixing::limits::MAX_LAYERS;
use numeric::compare::{is_finite, is_finite_above_zero};
use refusals::{Refusal, unless};
use set_points::SetPoints;
use tank_model::Heater;
use working_order::MAX_HEATERS;

// Of each item in turn: refused as the first of them that is.
fn check_each<T: Copy, C: Fn(T) -> Result<(), Refusal>>(
    items: &[T],
    check: C,
) -> Result<(), Refusal>
    requires { C.IsAlwaysCallable check }
    ensures { (number : T → ℕ) (d : T) → ((x : T) (r : _) → C.post check x r → number_in r ≡ number x)
        → number_in result ≡ first_among (λ i. number (get_or items.now i d)) (length items.now) }
{
    for x in items {
        check(*x)?;
    }
    Ok(())
}

// Finite and not below zero: -0.0 is a number like 0.0.
fn is_not_negative(x: f64) -> bool
    ensures { result ≡ not_negative x }
{
    is_finite(x) && !(x < 0.0)
}

// At least 0 and at most 1: exactly 1 is the top layer.
fn is_position(x: f64) -> bool
    ensures { result ≡ is_position x }
{
    0.0 <= x && x <= 1.0
}

// ---- of a tank, or of what one is made from

// 1.
pub fn layers_check(c: Cylinder) -> Result<(), Refusal>
    ensures { number_in result ≡ layers_check c }
{
    unless(1 <= c.layers && c.layers <= MAX_LAYERS, Refusal::LayerCount)
}

// 2: of n heaters, and so many more that are to come.
pub fn heaters_check(n: usize, more: usize) -> Result<(), Refusal>
    ensures { number_in result ≡ heaters_check (n + more) }
{
    unless(
        n <= MAX_HEATERS && more <= MAX_HEATERS - n,
        Refusal::HeaterCount,
    )
}

// 3: volume, density, specific heat and step length.
pub fn numbers_check(c: Cylinder) -> Result<(), Refusal>
    ensures { number_in result ≡ numbers_check c }
{
    unless(
        is_finite_above_zero(c.volume)
            && is_finite_above_zero(c.rho)
            && is_finite_above_zero(c.cp)
            && is_finite_above_zero(c.timestep),
        Refusal::NotAboveZero,
    )
}

// 4, where the initial temperature, or each stored layer, is finite or not.
pub fn temperatures_check(c: Cylinder, finite: bool) -> Result<(), Refusal>
    ensures { number_in result ≡ temperatures_check c finite }
{
    unless(
        is_not_negative(c.standby) && is_finite(c.ambient) && finite,
        Refusal::Temperature,
    )
}

// 5, of one heater.
pub fn heater_check(x: Heater) -> Result<(), Refusal>
    ensures { number_in result ≡ heater_check (placed x) }
{
    unless(
        is_not_negative(x.rated) && is_position(x.position) && is_position(x.thermostat_position()),
        Refusal::Heater,
    )
}

// 5, of each heater.
pub fn places_check(fitted: &[Heater]) -> Result<(), Refusal>
    ensures { number_in result ≡ places_check (placed_heaters (length fitted.now) fitted.now) }
{
    check_each(fitted, heater_check)
}

// ---- of a step's arguments

// 6, of a tank of n heaters.
pub fn counts_check(n: usize, events: usize, entries: usize) -> Result<(), Refusal>
    ensures { number_in result ≡ counts_check n events entries }
{
    unless(events <= MAX_EVENTS && entries == n, Refusal::StepCounts)
}

// 7, of the feed temperature.
pub fn feed_check(feed: f64) -> Result<(), Refusal>
    ensures { number_in result ≡ feed_check feed }
{
    unless(is_finite(feed), Refusal::Draw)
}

// 7, of one volume.
pub fn volume_check(v: f64) -> Result<(), Refusal>
    ensures { number_in result ≡ volume_check v }
{
    unless(is_not_negative(v), Refusal::Draw)
}

// 7, of each volume.
fn volumes_check(volumes: &[f64]) -> Result<(), Refusal>
    ensures { number_in result ≡ volumes_check (length volumes.now) volumes.now }
{
    check_each(volumes, volume_check)
}

// 7.
#[tactic(auto, using(crate::proofs::FirstRefusal::one_by_one))]
pub fn draws_check(feed: f64, volumes: &[f64]) -> Result<(), Refusal>
    ensures { number_in result ≡ draws_check feed (length volumes.now) volumes.now }
{
    feed_check(feed)?;
    volumes_check(volumes)
}

// Of one heater's set points: 12 where a present one is not finite; else 8 where the lower one comes alone, and 13 where it is greater than the upper.
#[tactic(auto, unfolding(tank_model::specs::Checks::points_check))]
pub fn points_check(p: SetPoints) -> Result<(), Refusal>
    ensures { number_in result ≡ points_check p }
{
    match p {
        SetPoints::Neither => Ok(()),
        SetPoints::Lower(l) => {
            unless(is_finite(l), Refusal::SetPointNotFinite)?;
            Err(Refusal::LowerAlone)
        }
        SetPoints::Upper(u) => unless(is_finite(u), Refusal::SetPointNotFinite),
        SetPoints::Both(l, u) => {
            unless(is_finite(l) && is_finite(u), Refusal::SetPointNotFinite)?;
            unless(!(l > u), Refusal::LowerAboveUpper)
        }
    }
}

// 12, 8 or 13, of the first n heaters' set points: the first faulty heater, as given, decides.
// Kept: tried with a slice, which its caller cuts: no proof closed there, where the volumes are cut too, and the length of `settings` is not known.
pub fn settings_check(n: usize, settings: &[SetPoints; MAX_HEATERS]) -> Result<(), Refusal>
    requires { n ≤ max_heaters }
    ensures { number_in result ≡ settings_check n settings.now }
{
    check_each(&settings[..n], points_check)
}
