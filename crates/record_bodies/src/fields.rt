// The parts of a step's record that repeat: its volumes, and a presence byte with two doubles for each heater.
// Kept: 64 places, and eight, of which a step's counts say how many are its own, by the rule that nothing is on a heap.
// Kept: (s, at), a position in the lent bytes: 01 states a record's fields by positions, and a refusal answers the record's start.
ghost use Rattle.std.specs.Prelude.{◌≡◌, ℕ, ◌+◌, ◌*◌, ◌≤◌, ◌<◌, length};
ghost use Rattle.numeric.specs.Holds.{holds};
ghost use Rattle.numeric.specs.Tabulate.{tabulate};
ghost use Rattle.draw_events.specs.Lent.{max_events};
ghost use Rattle.working_order.specs.Order.{max_heaters};
ghost use Rattle.job_records.specs.Fields.{volumes_at, is_presence_at, points_at, settings_at};

use draw_events::event::MAX_EVENTS;
use job_records::bytes::f64_at;
use set_points::SetPoints;
use working_order::MAX_HEATERS;

// Each place by what is read where it stands: a first position, and so many bytes further for each place.
fn fill_from<T: Copy, R: Fn(&[u8], usize) -> T>(
    places: &mut [T],
    s: &[u8],
    at: usize,
    stride: usize,
    read: R,
)
    requires room { at + stride * length places.old ≤ length s.now }
    requires reads { (k : ℕ) (b : _) → k < length places.old → b.now ≡ s.now → R.pre read b (at + stride * k) }
    ensures { (g : ℕ → T) → ((k : ℕ) (b : _) (x : T) → k < length places.old → b.now ≡ s.now → R.post read b (at + stride * k) x → x ≡ g k)
        → places.new ≡ tabulate g (length places.old) 0 }
{
    for k in 0..places.len() {
        places[k] = read(s, at + stride * k);
    }
}

// The first n volumes, and zeros after them.
pub fn volumes_at(s: &[u8], at: usize, n: usize) -> [f64; MAX_EVENTS]
    requires { (n ≤ max_events) × (at + 8 * n ≤ length s.now) }
    ensures { result ≡ volumes_at s.now at n }
{
    let mut volumes = [0.0; MAX_EVENTS];
    fill_from(&mut volumes[..n], s, at, 8, f64_at);
    volumes
}

// Each entry's presence byte is 0 to 3.
pub fn are_presence_bytes(s: &[u8], at: usize, n: usize) -> bool
    requires { (n ≤ max_heaters) × (at + 17 * n ≤ length s.now) }
    ensures { result ≡ holds (is_presence_at s.now at) n 0 }
{
    (0..n).all(|k| s[at + 17 * k] <= 3)
}

// Bit 0 of the presence byte is the lower set point, bit 1 the upper. An absent double is not looked at.
#[tactic(auto, unfolding(job_records::specs::Fields::points_of, job_records::specs::Fields::points_at))]
pub fn points_at(s: &[u8], at: usize) -> SetPoints
    requires { at + 17 ≤ length s.now }
    ensures { result ≡ points_at s.now at }
{
    // Kept: 0 to 3 as numbers: 01 writes presence as a byte, and this match is where it becomes `SetPoints`.
    match s[at] {
        0 => SetPoints::Neither,
        1 => SetPoints::Lower(f64_at(s, at + 1)),
        2 => SetPoints::Upper(f64_at(s, at + 9)),
        _ => SetPoints::Both(f64_at(s, at + 1), f64_at(s, at + 9)),
    }
}

// The settings of the first n heaters, and no set points after them.
pub fn settings_at(s: &[u8], at: usize, n: usize) -> [SetPoints; MAX_HEATERS]
    requires { (n ≤ max_heaters) × (at + 17 * n ≤ length s.now) }
    ensures { result ≡ settings_at s.now at n }
{
    let mut settings = [SetPoints::Neither; MAX_HEATERS];
    fill_from(&mut settings[..n], s, at, 17, points_at);
    settings
}
