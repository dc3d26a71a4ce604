// `calc_temps_after_extraction`: from the top, a layer lacking water takes from the layers below it, nearest first, then from the feed.
ghost use Rattle.std.specs.Prelude.{◌≡◌};
ghost use Rattle.refill.specs.Refill.{refill};
ghost use Rattle.refill.specs.Lent.{refill_of};

use cylinder::LayeredCylinder;
use draw_off::cold::Feed;
use layer_filling::LayerFilling;
use mixing::limits::MAX_LAYERS;

// The answer is whether the event ends in a mixing. The temperatures met are those from before the event: a layer is written when all above it are.
pub fn calc_temps_after_extraction(
    tank: &LayeredCylinder,
    feed: Feed,
    temps: &mut [f64; MAX_LAYERS],
    held: &mut [f64; MAX_LAYERS],
) -> bool
    ensures { refill_of held.new temps.new result
        ≡ refill tank.now.numbers.layers tank.now.vol feed temps.old held.old }
{
    let n = tank.numbers.layers;
    let vol = &tank.vol;
    let mut mixes = false;
    let mut kept = repeating_layers::keep_filling(n, vol, held);
    'filling: for i in (0..n).rev() {
        // The layer takes from the one below it just what was taken from itself.
        if let Some(volumes) = kept {
            if volumes.is_over_full(i, vol, held) {
                temps[i] = (volumes.held * temps[i] + volumes.lack * temps[i - 1]) / volumes.after;
                held[i - 1] = volumes.held;
                held[i] = volumes.after;
                continue 'filling;
            }
        }
        let mut f = LayerFilling::new(vol[i], held[i], temps[i]);
        if cylinder::is_no_volume(f.lack) {
            break 'filling;
        }
        'donors: for j in (0..i).rev() {
            if cylinder::is_no_volume(f.lack) {
                break 'donors;
            }
            f = f.take_from(j, temps, held);
        }
        mixes |= f.does_enter_warmer(feed);
        f = f.take_from_feed(feed);
        temps[i] = f.weighted / f.volume;
        held[i] = f.volume;
        kept = repeating_layers::keep_filling(i, vol, held);
    }
    mixes
}
