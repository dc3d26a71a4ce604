// Standard input, read until the buffer is full or the input ends.
ghost use Rattle.std.specs.Prelude.{◌≡◌, length};
ghost use Rattle.streams.specs.Whole.{IsPrefixLen, moved_in};

use crate::Broken;
use crate::wait::Tries;
use std::io::Read;
use std::time::Clock;

// Reads standard input until buf is full or the input ends, and answers how many bytes came. A read that fails is no end of the input.
pub fn fill(
    rt: &(impl Input + Eprint + Clock),
    program: &[u8],
    buf: &mut [u8],
) -> Result<usize, Broken>
    ensures prefix_len { IsPrefixLen (moved_in result) buf.new }
    ensures buf_len_unchanged { length buf.new ≡ length buf.old }
{
    let mut input = rt.reader();
    let mut tries = Tries::all();
    let mut count = 0;
    // Kept: a `while`, which counts no index: it goes on until the buffer is full, the input ends, or a read fails for good.
    while count < buf.len() {
        match input.read(&mut buf[count..]) {
            Ok(0) => break,
            Ok(come) => {
                count += come;
                tries = Tries::all();
            }
            Err(why) => {
                if !tries.again(rt, &why) {
                    crate::say::failed(rt, program, "standard input", why);
                    return Err(Broken { moved: count });
                }
            }
        }
    }
    Ok(count)
}
