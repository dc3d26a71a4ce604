// The order in which a step works its heaters, by the position of each: rising position, ties in the given order. An insertion sort of their numbers, from
// the last heater to the first.
// Kept: `length ≤ max_heaters` asked: the order stands in an array of eight places, as nothing is on a heap; 01 prescribes the most there can be.
// Kept: each entry of an order is below the count by a contract, and no type of its own: it indexes arrays, and a type would be taken apart at each.
#![tactic(auto)]

ghost use Rattle.std.specs.Prelude.{◌≡◌, ◌++◌, ◌+◌, ◌-◌, ◌≤◌, ◌<◌, length, replicate};
ghost use Rattle.working_order.specs.Order.{max_heaters, NumbersFrom, with_heater, comes_before, rising_order, position_in};

pub const MAX_HEATERS: usize = 8;

// The heater x, given before y, is worked before it.
fn comes_before(positions: &[f64], x: usize, y: usize) -> bool
    requires { (x < length positions.now) × (y < length positions.now) }
    ensures { result ≡ comes_before (position_in positions.now) x y }
{
    positions[x] <= positions[y]
}

// Puts x among those given after it, which stand in order in the places after x: those worked before it move down by one place.
fn insert_heater(positions: &[f64], x: usize, order: &mut [usize; MAX_HEATERS])
    requires { (x < length positions.now) × (length positions.now ≤ max_heaters)
        × (length order.old ≡ max_heaters) × NumbersFrom (x + 1) (length positions.now) order.old }
    ensures { order.new ≡ with_heater (comes_before (position_in positions.now)) (length positions.now) x order.old }
{
    let last = positions.len() - 1;
    // Kept: a sort written out: its contract is an equation for any positions, also for NaN, which gives no order as a library's sort asks for.
    // Kept: by single places, as a search and `copy_within` walk them twice.
    for j in x..last {
        let y = order[j + 1];
        if comes_before(positions, x, y) {
            order[j] = x;
            return;
        }
        order[j] = y;
    }
    order[last] = x;
}

// The heaters' numbers in working order, and zeros past them.
pub fn working_order(positions: &[f64]) -> [usize; MAX_HEATERS]
    requires { length positions.now ≤ max_heaters }
    ensures { result ≡ rising_order (position_in positions.now) (length positions.now) ++ replicate (max_heaters - length positions.now) 0 }
{
    let mut order = [0; MAX_HEATERS];
    for x in (0..positions.len()).rev() {
        insert_heater(positions, x, &mut order);
    }
    order
}
