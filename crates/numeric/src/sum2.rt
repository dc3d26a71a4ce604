// Sum2: a sum that carries what each addition loses.
ghost use Rattle.std.specs.Prelude.{◌≡◌};
ghost use Rattle.numeric.specs.Sum2.{nothing_added, accumulate, total};

// The running sum and its correction.
#[derive(Clone, Copy, Default)]
pub struct Accumulator {
    pub s: f64,
    pub c: f64,
}

impl Accumulator {
    pub fn start() -> Accumulator
        ensures { result ≡ nothing_added }
    {
        Accumulator::default()
    }

    #[tactic(auto, unfolding(crate::specs::Sum2::accumulate))]
    pub fn add_term(self, b: f64) -> Accumulator
        ensures { result ≡ accumulate self b }
    {
        let x = self.s + b;
        let z = x - self.s;
        Accumulator {
            s: x,
            c: self.c + ((self.s - (x - z)) + (b - z)),
        }
    }

    pub fn total_of(self) -> f64
        ensures { result ≡ total self }
    {
        self.s + self.c
    }
}
