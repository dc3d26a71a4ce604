// A heater's set points, and each of them.
#![tactic(auto)]

ghost use Rattle.std.specs.Prelude.{◌≡◌};
ghost use Rattle.set_points.specs.SetPoints.{given_lower, given_upper};

// A heater's set points: neither, the lower only, the upper only, or both, the lower one first.
#[derive(Clone, Copy, Default)]
pub enum SetPoints {
    #[default]
    Neither,
    Lower(f64),
    Upper(f64),
    Both(f64, f64),
}

impl SetPoints {
    #[tactic(auto, unfolding(crate::specs::SetPoints::has_lower, crate::specs::SetPoints::lower_of))]
    pub fn lower(self) -> Option<f64>
        ensures { result ≡ given_lower self }
    {
        match self {
            SetPoints::Lower(l) | SetPoints::Both(l, _) => Some(l),
            _ => None,
        }
    }

    #[tactic(auto, unfolding(crate::specs::SetPoints::has_upper, crate::specs::SetPoints::upper_of))]
    pub fn upper(self) -> Option<f64>
        ensures { result ≡ given_upper self }
    {
        match self {
            SetPoints::Upper(u) | SetPoints::Both(_, u) => Some(u),
            _ => None,
        }
    }
}
