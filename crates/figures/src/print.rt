// How doubles are printed: each as the 16 hexadecimal digits of its bits.
use std::fmt;
use std::num::f64_to_bits_with_nan;

#[derive(Clone, Copy)]
pub struct Bits(pub f64);

impl fmt::Display for Bits {
    fn fmt<W: fmt::Write>(&self, f: &mut fmt::Formatter<W>) -> fmt::Result {
        let bits = f64_to_bits_with_nan(self.0);
        write!(f, "{bits:016x}")
    }
}

// Each after a space.
#[derive(Clone, Copy)]
pub struct Row<'a>(pub &'a [f64]);

impl fmt::Display for Row<'_> {
    fn fmt<W: fmt::Write>(&self, f: &mut fmt::Formatter<W>) -> fmt::Result {
        for x in self.0 {
            write!(f, " {}", Bits(*x))?;
        }
        Ok(())
    }
}
