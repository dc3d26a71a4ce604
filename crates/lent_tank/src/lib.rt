// A tank, a step and a report as C lends them: arrays of numbers, and flags as bytes, in the layout that compare/README.md tells; read into what the calls
// take, and written from what they hand back. Flags are bytes since C can lend any: one is false where it is 0 and true for all others; written, it is 1 or 0.
// Kept: arrays beside one another in what these functions take and give: C's interface lends a tank, a report and a step so.
#![tactic(auto)]

pub mod flags;
pub mod reports;
pub mod steps;
pub mod tanks;

ghost use Rattle.std.specs.Prelude.{◌≡◌, [], ◌∷◌, length, Float};
ghost use Rattle.working_order.specs.Order.{max_heaters};
ghost use Rattle.lent_tank.specs.Layout.{three_of};

use working_order::MAX_HEATERS;

// A number for each heater, two of them one after the other; and three.
pub const TWO_EACH: usize = 2 * MAX_HEATERS;

pub const THREE_EACH: usize = 3 * MAX_HEATERS;

// Three numbers of each heater: all of the first, then all of the second, then all of the third.
fn three_each<T: Copy, F: Fn(T) -> [f64; 3]>(items: &[T], numbers: F) -> [f64; THREE_EACH]
    requires many { length items.now ≡ max_heaters }
    requires callable { F.IsAlwaysCallable numbers }
    ensures { (f g e : T → Float) (d : T) → ((x : T) (r : _) → F.post numbers x r → r ≡ f x ∷ g x ∷ e x ∷ [])
        → result ≡ three_of f g e d items.now }
{
    let mut rows = [0.0; THREE_EACH];
    for (h, x) in items.iter().enumerate() {
        let three = numbers(*x);
        rows[h] = three[0];
        rows[MAX_HEATERS + h] = three[1];
        rows[TWO_EACH + h] = three[2];
    }
    rows
}
