// What standard error is told, in one line: the program, the stream and the reason, as `job: standard output: No space left on device`. A byte of the program's
// name that is no plain ASCII character is written as its escape.
use std::io::Write;
use std::{io, str};

// The system's words for an error have at most 49 bytes; std writes the error's number after them.
const MAX_WORDS: usize = 128;

// What begins the number, as in `No space left on device (os error 28)`.
const NUMBER: &str = " (os error ";

// The words alone.
fn reason(text: &str) -> &str {
    match text.rsplit_once(NUMBER) {
        Some((words, _)) => words,
        None => text,
    }
}

// A call on the stream has failed. A line that standard error does not take is lost.
pub fn failed(rt: &impl Eprint, program: &[u8], stream: &str, why: io::Error) {
    let mut room = [0; MAX_WORDS];
    let mut rest = &mut room[..];
    let _ = write!(rest, "{why}");
    let end = MAX_WORDS.saturating_sub(rest.len());
    let text = str::from_utf8(&room[..end]).unwrap_or("");
    let words = reason(text);
    let name = program.escape_ascii();
    let _ = eprintln!(rt; "{name}: {stream}: {words}");
}

// A write has taken no byte, of which nothing says why.
pub fn none_taken(rt: &impl Eprint, program: &[u8]) {
    let name = program.escape_ascii();
    let _ = eprintln!(rt; "{name}: standard output: no byte was taken");
}
