// How many layers there can be, and how many rounds a mixing may run.
ghost use Rattle.std.specs.Prelude.{◌≡◌};
ghost use Rattle.mixing.specs.Limits.{max_rounds};

pub const MAX_LAYERS: usize = 32;

// A function of the number of layers, though today it is the same for all.
pub fn max_rounds(n: usize) -> usize
    ensures { result ≡ max_rounds n }
{
    64
}
