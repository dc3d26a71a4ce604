// What one layer loses, and the temperature at which it ends, told by what stands at that layer alone.
#![tactic(auto)]

ghost use Rattle.std.specs.Prelude.{◌≡◌, Bool};
ghost use Rattle.numeric.specs.Double.{◌⊛◌};
ghost use Rattle.layer_losses.specs.Loss.{clearly_above, over_upper, standby_coefficient, counted_temp, standing_loss, loss};
ghost use Rattle.layer_losses.specs.Loss.{limit_of, limited_temp, surplus_term, layer_after};
ghost use Rattle.set_points.specs.declared.SetPoints.{SetPoints};

use cylinder::Cylinder;
use set_points::SetPoints;

// t is above u and not wide-close to it, by the test of Close that knows which is the larger: a turn asks this of each layer.
fn is_clearly_above(t: f64, u: f64) -> bool
    ensures { result ≡ clearly_above t u }
{
    t > u && !numeric::close::is_close_above(t, u, numeric::close::WIDE)
}

#[tactic(auto, using(set_points::proofs::Given::upper_cases), unfolding(crate::specs::Loss::over_upper))]
pub fn is_over_upper(p: SetPoints, t: f64) -> bool
    ensures { result ≡ over_upper p t }
{
    match p.upper() {
        Some(u) => is_clearly_above(t, u),
        None => false,
    }
}

// W/K: 45 is the standard test's water at 65 less its room at 20.
fn stand_by_losses_coefficient(c: Cylinder) -> f64
    ensures { result ≡ standby_coefficient c }
{
    (1000.0 * c.standby) / (24.0 * 45.0)
}

// A layer after the mixing: its volume, its temperature before the heat and now, and what earlier heaters charged it in this step.
#[derive(Clone, Copy)]
pub struct Layer {
    pub volume: f64,
    pub before: f64,
    pub mixed: f64,
    pub charged: f64,
}

// What a layer loses, and the temperature at which it ends.
#[derive(Clone, Copy)]
pub struct LayerAfter {
    pub lost: f64,
    pub temp: f64,
}

impl Layer {
    // The upper set point, where the heat warmed the layer: it limits no other.
    fn limit(self, p: SetPoints) -> Option<f64>
        ensures { result ≡ limit_of p (clearly_above self.mixed self.before) }
    {
        if is_clearly_above(self.mixed, self.before) {
            p.upper()
        } else {
            None
        }
    }

    // A warmed layer is counted at no more than the upper set point.
    #[tactic(auto, using(crate::proofs::Limit::limit_cases), unfolding(crate::specs::Loss::counted_temp))]
    fn counted_temp(self, limit: Option<f64>) -> f64
        ensures { (p : SetPoints) (warm : Bool) → limit ≡ limit_of p warm → result ≡ counted_temp p warm self.mixed }
    {
        match limit {
            Some(u) => numeric::compare::min_of_2(self.mixed, u),
            None => self.mixed,
        }
    }

    // What the layer loses in the step at the temperature t.
    #[tactic(auto, unfolding(crate::specs::Loss::standing_loss))]
    fn standing_loss(self, c: Cylinder, t: f64) -> f64
        ensures { result ≡ standing_loss c self.volume t }
    {
        (stand_by_losses_coefficient(c) * c.rho * c.cp)
            * (self.volume / c.volume)
            * (t - c.ambient)
            * c.timestep
    }

    // Its loss, less what earlier heaters charged it.
    #[tactic(auto, unfolding(crate::specs::Loss::loss))]
    fn loss(self, c: Cylinder, limit: Option<f64>) -> f64
        ensures { (p : SetPoints) (warm : Bool) → limit ≡ limit_of p warm → result ≡ loss c self.volume p warm self.mixed self.charged }
    {
        let standing = self.standing_loss(c, self.counted_temp(limit));
        numeric::compare::max_of_2(0.0, standing - self.charged)
    }

    // A warmed layer over the upper set point ends exactly there; any other drops by its loss. `capacity` is the heat of one degree.
    #[tactic(auto, using(crate::proofs::Limit::limit_cases), unfolding(crate::specs::Loss::over_upper, crate::specs::Loss::limited_temp))]
    fn limited_temp(self, limit: Option<f64>, lost: f64, capacity: f64) -> f64
        ensures { (p : SetPoints) (warm : Bool) → limit ≡ limit_of p warm → result ≡ limited_temp p warm self.mixed lost capacity }
    {
        match limit {
            Some(u) if is_clearly_above(self.mixed, u) => u,
            _ => self.mixed - lost / capacity,
        }
    }

    #[inline(always)]
    fn after_loss(self, c: Cylinder, limit: Option<f64>) -> LayerAfter
        ensures { (p : SetPoints) (warm : Bool) → limit ≡ limit_of p warm → result ≡ layer_after c self.volume p warm self.mixed self.charged }
    {
        let lost = self.loss(c, limit);
        let temp = self.limited_temp(limit, lost, c.rho * c.cp * self.volume);
        LayerAfter { lost, temp }
    }

    // Most layers have no limit: a call for each answer, inlined, so that they are worked without further questions.
    pub fn after(self, c: Cylinder, p: SetPoints) -> LayerAfter
        ensures { result ≡ layer_after c self.volume p (clearly_above self.mixed self.before) self.mixed self.charged }
    {
        match self.limit(p) {
            Some(u) => self.after_loss(c, Some(u)),
            None => self.after_loss(c, None),
        }
    }

    // Its heat less its loss less its heat at the set point; not a number where there is no upper set point.
    // Kept: not-a-number, as the definition has it (`upper_of`): the only caller asks where the set point is passed, and would ask again of an `Option`.
    pub fn surplus(self, c: Cylinder, p: SetPoints) -> f64
        ensures { result ≡ surplus_term p self.mixed (loss c self.volume p (clearly_above self.mixed self.before) self.mixed self.charged)
            (c.rho ⊛ c.cp ⊛ self.volume) }
    {
        let lost = self.loss(c, self.limit(p));
        let capacity = c.rho * c.cp * self.volume;
        capacity * self.mixed - lost - capacity * p.upper().unwrap_or(f64::NAN)
    }
}
