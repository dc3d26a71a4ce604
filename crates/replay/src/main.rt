// Runs the stored jobs through the functions that the program `job` runs, and holds every line against the Rust's.
// Standard input is a case after another: a 4-byte length and a job, then a 4-byte length and the lines that it must print.
#![tactic(auto)]

ghost use Rattle.std.specs.Prelude.{◌≡◌, ◌≤◌, IfSome, length};
ghost use Rattle.job_model.specs.Job.{job_text};
ghost use Rattle.replay.specs.Same.{same_text};

use job_run::lines::Figures;
use job_run::record::next_record;
use job_run::start::start;
use std::io;
use std::time::Clock;

const MAX_BYTES: usize = 65536;

const MAX_CASES: usize = 65536;

// The cases run, the lines that they should print, and the cases whose lines differ.
#[derive(Clone, Copy, Default)]
struct Tally {
    cases: u64,
    lines: u64,
    differ: u64,
}

// What the job prints is the stored lines, all of them and no more.
fn is_same(bytes: &[u8], stored: &[u8]) -> bool
    requires { length bytes.now ≤ 65536 }
    ensures { result ≡ same_text stored.now (job_text bytes.now) }
{
    let mut job = start();
    let mut rest = stored;
    // Kept: a `while`, which counts no index: it goes on until the job has ended, or its lines differ.
    while !job.ended {
        let mut lines = [0; 4096];
        let printed = next_record::<Figures>(&mut lines, bytes, job);
        let Some(after) = rest.strip_prefix(&lines[..printed.length]) else {
            return false;
        };
        job = printed.job;
        rest = after;
    }
    rest.is_empty()
}

fn line_count(stored: &[u8]) -> usize {
    stored.iter().filter(|b| **b == b'\n').count()
}

// A 4-byte length, if there is one, and it is no more than any part may have.
fn next_size(rt: &(impl Input + Eprint + Clock)) -> Option<usize>
    ensures { IfSome result (λ n. n ≤ 65536) }
{
    let mut head = [0; 4];
    let Ok(4) = streams::fill(rt, b"replay", &mut head) else {
        return None;
    };
    let size = u32::from_le_bytes(head) as usize;
    if size > MAX_BYTES {
        return None;
    }
    Some(size)
}

// A length, and so many bytes after it, read into the first of the buffer.
fn next_part<'a>(
    rt: &(impl Input + Eprint + Clock),
    buf: &'a mut [u8; MAX_BYTES],
) -> Option<&'a [u8]>
    ensures { IfSome result (λ part. length part.now ≤ 65536) }
{
    let size = next_size(rt)?;
    let part = &mut buf[..size];
    let _ = streams::fill(rt, b"replay", part);
    Some(part)
}

// The tally with the next case, if there is one.
fn with_next(rt: &(impl Input + Eprint + Clock), t: Tally) -> Option<Tally> {
    let mut job_room = [0; MAX_BYTES];
    let mut lines_room = [0; MAX_BYTES];
    let bytes = next_part(rt, &mut job_room)?;
    let stored = next_part(rt, &mut lines_room)?;
    let differs = !is_same(bytes, stored);
    Some(Tally {
        cases: t.cases.wrapping_add(1),
        lines: t.lines.wrapping_add(line_count(stored) as u64),
        differ: t.differ.wrapping_add(u64::from(differs)),
    })
}

fn main(rt: HostRuntime) -> io::Result<()> {
    let mut t = Tally::default();
    // Kept: a counted loop. `while let` was tried: it asks for a measure, and no contract says that an input ends.
    for _ in 0..MAX_CASES {
        let Some(next) = with_next(&rt, t) else {
            break;
        };
        t = next;
    }
    println!(rt;
        "{} jobs, {} lines, {} jobs differ",
        t.cases, t.lines, t.differ
    )
}
