// Little-endian numbers in lent bytes, and the double of a bit pattern.
// Kept: (s, at), a position in the lent bytes: 01 states a record by positions, and a refusal answers the record's start.
ghost use Rattle.std.specs.Prelude.{◌≡◌, ◌+◌, ◌≤◌, length};
ghost use Rattle.job_records.specs.Bytes.{u16_at, u32_at, u64_at, double_at};

use std::num::f64_from_bits_with_nan;

pub fn u16_at(s: &[u8], at: usize) -> u16
    requires { at + 2 ≤ length s.now }
    ensures { result ≡ u16_at s.now at }
{
    u16::from_le_bytes(*s[at..].first_chunk().unwrap())
}

pub fn u32_at(s: &[u8], at: usize) -> u32
    requires { at + 4 ≤ length s.now }
    ensures { result ≡ u32_at s.now at }
{
    u32::from_le_bytes(*s[at..].first_chunk().unwrap())
}

pub fn u64_at(s: &[u8], at: usize) -> u64
    requires { at + 8 ≤ length s.now }
    ensures { result ≡ u64_at s.now at }
{
    u64::from_le_bytes(*s[at..].first_chunk().unwrap())
}

// Every pattern of a not-a-number gives the one not-a-number that the logic has.
pub fn f64_at(s: &[u8], at: usize) -> f64
    requires { at + 8 ≤ length s.now }
    ensures { result ≡ double_at s.now at }
{
    f64_from_bits_with_nan(u64_at(s, at))
}
