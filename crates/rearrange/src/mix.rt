// The call `mix`: layers lent as a slice of any length, with any numbers in it.
ghost use Rattle.std.specs.Prelude.{◌≡◌, ◌≤◌, ◌||◌, eqb, ltb, length};
ghost use Rattle.mixing.specs.Limits.{max_layers};
ghost use Rattle.mixing.specs.Mix.{MixWorked, MixAnswered};

use mixing::limits::MAX_LAYERS;
use refusals::Refusal;

// Layers that pass refusals 1 and 3. They are worked on in an array, and written only when the mixing is accepted.
fn mix_array(layers: &mut [f64], layer_volume: f64) -> Result<usize, Refusal>
    requires { (1 ≤ length layers.old) × (length layers.old ≤ max_layers) }
    ensures { MixWorked layers.old layer_volume result layers.new }
{
    let vol = [layer_volume; MAX_LAYERS];
    let mut temps = [0.0; MAX_LAYERS];
    let n = layers.len();
    temps[..n].copy_from_slice(layers);
    let rounds = crate::rearrange_temperatures(n, &vol, &mut temps)?;
    layers.copy_from_slice(&temps[..n]);
    Ok(rounds)
}

// Refusal 1: none, or more than there can be.
fn is_count_refused(n: usize) -> bool
    ensures { result ≡ (eqb n 0 || ltb max_layers n) }
{
    n == 0 || n > MAX_LAYERS
}

// Refusals 1, 3 and 9, in that order; a refused mix leaves the layers as they were.
pub fn mix(layers: &mut [f64], layer_volume: f64) -> Result<usize, Refusal>
    ensures { MixAnswered layers.old layer_volume result layers.new }
{
    let n = layers.len();
    if is_count_refused(n) {
        return Err(Refusal::LayerCount);
    }
    if !numeric::compare::is_finite_above_zero(layer_volume) {
        return Err(Refusal::NotAboveZero);
    }
    mix_array(layers, layer_volume)
}
