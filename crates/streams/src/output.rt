// Standard output, written until all of a text is taken.
ghost use Rattle.std.specs.Prelude.{length};
ghost use Rattle.streams.specs.Whole.{Carried};

use crate::Broken;
use crate::wait::Tries;
use std::time::Clock;

// Writes text to standard output, and answers how many bytes were taken: all. It stops at the first write that fails, or takes no byte, of which nothing says
// why.
pub fn send(
    rt: &(impl Print + Eprint + Clock),
    program: &[u8],
    text: &[u8],
) -> Result<usize, Broken>
    ensures { Carried (length text.now) result }
{
    let mut tries = Tries::all();
    let mut count = 0;
    // Kept: a `while`, which counts no index: it goes on until all of the text is taken, or a write fails for good.
    while count < text.len() {
        match rt.write_some(&text[count..]) {
            Ok(0) => {
                crate::say::none_taken(rt, program);
                return Err(Broken { moved: count });
            }
            Ok(taken) => {
                count += taken;
                tries = Tries::all();
            }
            Err(why) => {
                if !tries.again(rt, &why) {
                    crate::say::failed(rt, program, "standard output", why);
                    return Err(Broken { moved: count });
                }
            }
        }
    }
    Ok(count)
}

// Whether standard output took all of text; if not, standard error says why.
// Kept: a bool, which a public function was promised to answer; with a Result in its place it would be `send` a second time, which is no plainer.
pub fn put(rt: &(impl Print + Eprint + Clock), program: &[u8], text: &[u8]) -> bool {
    send(rt, program, text).is_ok()
}
