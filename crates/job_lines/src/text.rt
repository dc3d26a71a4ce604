// Bytes, digits and numbers, put into a lent buffer one after the other. The bound on places keeps their sums from wrapping.
// Kept: the room is asked of each call and `within` told by each: each text takes some, so a type that kept it would have to be told again after each.
ghost use Rattle.std.specs.Prelude.{◌≡◌, ℕ, List, [], ◌∷◌, ◌+◌, ◌*◌, ◌≤◌, ◌<◌, length, set};
ghost use Rattle.job_lines.specs.Lengths.{number_bytes, double_bytes, max_place};
ghost use Rattle.job_lines.specs.Put.{Writes, texts};
ghost use Rattle.job_lines.specs.Text.{digit_of, digits, Width, number_text, double_text};

use std::num::f64_to_bits_with_nan;

// Kept: `get_mut` was tried, and its contract does not tell what the buffer holds after it.
fn store(buf: &mut [u8], at: usize, b: u8)
    ensures { buf.new ≡ set buf.old at b }
{
    if at < buf.len() {
        buf[at] = b;
    }
}

fn digit(d: u64) -> u8
    requires { d < 16 }
    ensures { result ≡ digit_of d }
{
    b"0123456789abcdef"[d as usize]
}

// How many decimal digits n has.
fn width(n: u64) -> usize
    ensures { Width n result }
{
    match n.checked_ilog10() {
        Some(last) => last as usize + 1,
        None => 1,
    }
}

// A place in a lent buffer, where a text is put and which it moves past; what falls past the buffer's end is left out.
#[derive(Drop)]
pub struct Writer<'a> {
    pub buf: &'a mut [u8],
    pub at: usize,
}

impl<'a> Writer<'a> {
    pub fn byte(&mut self, b: u8)
        requires { self.old.at ≤ max_place }
        ensures puts { Writes self.old (b ∷ []) self.new }
        ensures within { self.new.at ≤ self.old.at + 1 }
    {
        store(self.buf, self.at, b);
        self.at += 1;
    }

    // A space and a number in decimal.
    pub fn number(&mut self, n: usize)
        requires { self.old.at + number_bytes ≤ max_place }
        ensures puts { Writes self.old (number_text n) self.new }
        ensures within { self.new.at ≤ self.old.at + number_bytes }
    {
        self.byte(b' ');
        let bits = n as u64;
        self.digits(10, width(bits), bits);
    }

    // A space and the 16 hexadecimal digits of a double's bits.
    pub fn double(&mut self, x: f64)
        requires { self.old.at + double_bytes ≤ max_place }
        ensures puts { Writes self.old (double_text x) self.new }
        ensures within { self.new.at ≤ self.old.at + double_bytes }
    {
        self.byte(b' ');
        self.digits(16, 16, f64_to_bits_with_nan(x));
    }

    // The last `count` digits of n in a base, from the last one to the first.
    // Kept: `write!` through a writer that never fails was tried. Its contract states the text only where it answers Ok, and not that it does so of such a one.
    fn digits(&mut self, base: u64, count: usize, n: u64)
        requires { (2 ≤ base) × (base ≤ 16) × (count ≤ 20) × (self.old.at ≤ max_place) }
        ensures puts { Writes self.old (digits base count n) self.new }
        ensures within { self.new.at ≤ self.old.at + count }
    {
        let mut rest = n;
        for i in (0..count).rev() {
            store(self.buf, self.at + i, digit(rest % base));
            rest /= base;
        }
        self.at += count;
    }
}

// What has a text of its own, of no more bytes than `most`.
pub trait Put {
    ghost text: { Self → List ℕ };

    ghost most: { ℕ };

    fn put(&self, w: &mut Writer)
        requires { w.old.at + most ≤ max_place }
        ensures puts { Writes w.old (text self.now) w.new }
        ensures within { w.new.at ≤ w.old.at + most };
}

impl Put for f64 {
    ghost text = { double_text };

    ghost most = { double_bytes };

    fn put(&self, w: &mut Writer) {
        w.double(*self);
    }
}

// The texts of several, one after the other.
pub fn put_all<T: Put>(w: &mut Writer, items: &[T])
    requires { w.old.at + T.most * length items.now ≤ max_place }
    ensures puts { Writes w.old (texts T.text items.now) w.new }
    ensures within { w.new.at ≤ w.old.at + T.most * length items.now }
{
    for x in items {
        x.put(w);
    }
}
