// Layers that repeat: what one layer takes from the full layer below it, that layer takes from the next.
#![tactic(auto)]

ghost use Rattle.std.specs.Prelude.{◌≡◌, true, ◌-◌, ◌≤◌, ◌<◌, IfSome};
ghost use Rattle.mixing.specs.Limits.{max_layers};
ghost use Rattle.repeating_layers.specs.Repeats.{Repeats, RepeatsAt, OverFull};

use mixing::limits::MAX_LAYERS;

// The volumes of a layer that repeats: it takes `full` and holds `held`; it lacks `lack`, and has `after` when it is filled. A full layer below it comes
// to have the same, so they are worked once, and no layer waits for the one above it.
#[derive(Clone, Copy)]
pub struct KeptFilling {
    pub full: f64,
    pub held: f64,
    pub lack: f64,
    pub after: f64,
}

// Whether a full layer below a layer that holds `held` comes to lack what this one lacks.
fn does_repeat(full: f64, held: f64) -> bool
    ensures { result ≡ true → Repeats full held }
{
    let lack = full - held;
    !cylinder::is_no_volume(lack)
        && lack < full
        && full > 0.0
        && held > 0.0
        && numeric::compare::is_same(full - lack, held)
}

// The volumes of the layer under n, if it repeats.
// Kept: n beside the arrays: were the layer's two volumes the parameters, both calls would ask first whether there is a layer under n.
pub fn keep_filling(
    n: usize,
    vol: &[f64; MAX_LAYERS],
    held: &[f64; MAX_LAYERS],
) -> Option<KeptFilling>
    requires { n ≤ max_layers }
    ensures { IfSome result (RepeatsAt vol.now held.now (n - 1)) }
{
    if n == 0 {
        return None;
    }
    let full = vol[n - 1];
    let h = held[n - 1];
    if !does_repeat(full, h) {
        return None;
    }
    let lack = full - h;
    Some(KeptFilling {
        full,
        held: h,
        lack,
        after: h + lack,
    })
}

impl KeptFilling {
    // Whether the layer i, whose volumes these are, stands over a full one as large.
    // Kept: `i < max_layers`: the loop over the layers knows it of its range; a type of places would be built at each pass, to say it again.
    pub fn is_over_full(self, i: usize, vol: &[f64; MAX_LAYERS], held: &[f64; MAX_LAYERS]) -> bool
        requires { (i < max_layers) × RepeatsAt vol.now held.now i self }
        ensures { result ≡ true → OverFull vol.now held.now i self }
    {
        i != 0
            && numeric::compare::is_same(vol[i - 1], self.full)
            && numeric::compare::is_same(held[i - 1], self.full)
    }
}
