// Flags, from the bytes that C lends for them and back. C can lend any byte, and a bool has no third value: so bytes are lent, and read here.
// Kept: flags as bytes: C lends them, and C can lend any.
ghost use Rattle.std.specs.Prelude.{◌≡◌};
ghost use Rattle.lent_tank.specs.Flags.{flag_in, byte_of, flags_in, bytes_of};

// A byte is false where it is 0 and true for all others.
#[tactic(auto, using(crate::proofs::Bytes::flag_test))]
pub(crate) fn flag_in(byte: u8) -> bool
    ensures { result ≡ flag_in byte }
{
    byte != 0
}

// Written, a flag is 1 or 0.
#[tactic(auto, unfolding(crate::specs::Flags::byte_of))]
fn byte_of(flag: bool) -> u8
    ensures { result ≡ byte_of flag }
{
    u8::from(flag)
}

// Kept: a loop, here and in `bytes_of`: `map` was tried, by a function's name: it asks that an iterator of N places fits in memory, unknown of any N.
pub fn flags_in<const N: usize>(bytes: &[u8; N]) -> [bool; N]
    ensures { result ≡ flags_in bytes.now }
{
    let mut flags = [false; N];
    for (i, byte) in bytes.iter().enumerate() {
        flags[i] = flag_in(*byte);
    }
    flags
}

pub fn bytes_of<const N: usize>(flags: &[bool; N]) -> [u8; N]
    ensures { result ≡ bytes_of flags.now }
{
    let mut bytes = [0; N];
    for (i, flag) in flags.iter().enumerate() {
        bytes[i] = byte_of(*flag);
    }
    bytes
}
