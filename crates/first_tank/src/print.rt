// What the calls answer, in words and numbers, a line for each call and one for its layers.
// Kept: apart from the printing of figures: they would share a few lines, for which a crate more is no plainer, and this folder is copied to begin a program.
use job_records::{Reading, Record};
use refusals::{Refusal, number_in};
use set_points::SetPoints;
use std::{fmt, io};
use storage_tank::{Made, Stepped, StorageTank};

// A whole number in decimal (-0 as 0), any other double as the 16 hexadecimal digits of its bits.
#[derive(Clone, Copy)]
struct Double(f64);

impl fmt::Display for Double {
    fn fmt<W: fmt::Write>(&self, f: &mut fmt::Formatter<W>) -> fmt::Result {
        let x = self.0;
        if x > -1.0 && x < 18446744073709551616.0 {
            let n = std::num::saturating_f64_to_u64(x);
            if std::num::nearest_u64_to_f64(n) == x {
                return write!(f, "{n}");
            }
        }
        let bits = std::num::f64_to_bits_with_nan(x);
        write!(f, "{bits:016x}")
    }
}

// Each after a space.
#[derive(Clone, Copy)]
struct Row<'a>(&'a [f64]);

impl fmt::Display for Row<'_> {
    fn fmt<W: fmt::Write>(&self, f: &mut fmt::Formatter<W>) -> fmt::Result {
        for x in self.0 {
            write!(f, " {}", Double(*x))?;
        }
        Ok(())
    }
}

// Those that are given.
#[derive(Clone, Copy)]
struct Points(SetPoints);

impl fmt::Display for Points {
    fn fmt<W: fmt::Write>(&self, f: &mut fmt::Formatter<W>) -> fmt::Result {
        match self.0 {
            SetPoints::Neither => Ok(()),
            SetPoints::Lower(lower) => write!(f, ", lower {}", Double(lower)),
            SetPoints::Upper(upper) => write!(f, ", upper {}", Double(upper)),
            SetPoints::Both(lower, upper) => {
                write!(f, ", lower {}, upper {}", Double(lower), Double(upper))
            }
        }
    }
}

// A record's kind and some of its values: of a step its first volume and its first heater's set points.
#[derive(Clone, Copy)]
struct Contents(Record);

impl fmt::Display for Contents {
    fn fmt<W: fmt::Write>(&self, f: &mut fmt::Formatter<W>) -> fmt::Result {
        match &self.0 {
            Record::Tank(t) => write!(
                f,
                ", tank, layers {}, initial {}",
                t.layers,
                Double(t.initial)
            ),
            Record::Heater(h) => {
                write!(
                    f,
                    ", heater, rated {}, position {}",
                    Double(h.rated),
                    Double(h.position)
                )
            }
            Record::Step(s) => write!(
                f,
                ", step, feed {}, volume {}{}",
                Double(s.feed),
                Double(s.volumes[0]),
                Points(s.settings[0])
            ),
        }
    }
}

// The layers of a tank, the bottom first: none of one that counts more than it has places.
fn layers(rt: &impl Print, t: &StorageTank) -> io::Result<()> {
    if let Some(shown) = t.temps.get(..t.layers) {
        println!(rt; "  layers{}", Row(shown))?;
    }
    Ok(())
}

// The number of the refusal, 0 where accepted.
pub fn made(rt: &impl Print, m: &Made) -> io::Result<()> {
    println!(rt; "make {}", number_in(&m.outcome))?;
    layers(rt, &m.tank)
}

// With the line of the first heater.
pub fn stepped(rt: &impl Print, s: &Stepped) -> io::Result<()> {
    let r = &s.report;
    println!(rt;
        "step {}: energy {}, volume {}, average {}, recoverable {}",
        number_in(&s.outcome),
        Double(r.energy),
        Double(r.used),
        Double(r.average),
        Double(r.recoverable)
    )?;
    layers(rt, &s.tank)?;
    let heater = &r.lines[0];
    println!(rt;
        "  heater: flag {}, adjusted {}, supplied {}, losses {}, rounds {}",
        u8::from(heater.flag),
        Double(heater.adjusted),
        Double(heater.supplied),
        Double(heater.losses),
        heater.rounds
    )
}

pub fn mixed(rt: &impl Print, answer: Result<usize, Refusal>, layers: &[f64]) -> io::Result<()> {
    match answer {
        Ok(rounds) => println!(rt; "mix 0: rounds {rounds}")?,
        Err(refusal) => println!(rt; "mix {}", refusal.number())?,
    }
    println!(rt; "  layers{}", Row(layers))
}

// A record's number, 0 or 11, the position after it, and some of its values.
pub fn record(rt: &impl Print, r: &Reading) -> io::Result<()> {
    match r.content {
        Ok(content) => println!(rt; "read 0: next {}{}", r.next, Contents(content)),
        Err(refusal) => println!(rt; "read {}: next {}", refusal.number(), r.next),
    }
}
