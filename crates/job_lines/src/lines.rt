// The lines S, L, H and E.
// Kept: an array of layers and a count of any size, as a tank has them: 01 cuts the count here, and a slice would ask each caller to cut it.
// Kept: the room is asked of each call and `within` told by each: each text takes some, so a type that kept it would have to be told again after each.
ghost use Rattle.std.specs.Prelude.{ℕ, ◌+◌, ◌*◌, ◌≤◌, ◌<◌, get_or, length};
ghost use Rattle.refusals.specs.Refusals.{number_of};
ghost use Rattle.mixing.specs.Limits.{max_layers};
ghost use Rattle.working_order.specs.Order.{max_heaters};
ghost use Rattle.job_lines.specs.Put.{Writes, PutWhole};
ghost use Rattle.job_lines.specs.Lengths.{head_bytes, totals_bytes, layers_bytes, heater_bytes, before_heaters, max_text, max_place};
ghost use Rattle.job_lines.specs.Lines.{head_text, totals_text, layers_line, heater_line, heater_lines};
ghost use Rattle.job_lines.specs.Lines.{refusal_line, refused_lines, accepted_lines};

use crate::text::{Writer, put_all};
use mixing::limits::MAX_LAYERS;
use refusals::Refusal;
use storage_tank::Report;
use tank_model::HeaterLine;
use working_order::MAX_HEATERS;

// S, the step's index and the number of what it answers, the line not ended.
// Kept: the number of a refusal, here and below, as lines print any number: a `Refusal` in its place would ask for one of 01's.
pub fn put_head(w: &mut Writer, index: usize, number: u8)
    requires { w.old.at + head_bytes ≤ max_place }
    ensures puts { Writes w.old (head_text index number) w.new }
    ensures within { w.new.at ≤ w.old.at + head_bytes }
{
    w.byte(b'S');
    w.number(index);
    w.number(usize::from(number));
}

// The four totals, and the line's end.
fn put_totals(w: &mut Writer, r: &Report)
    requires { w.old.at ≤ head_bytes }
    ensures puts { Writes w.old (totals_text r.now) w.new }
    ensures within { w.new.at ≤ w.old.at + totals_bytes }
{
    w.double(r.energy);
    w.double(r.used);
    w.double(r.average);
    w.double(r.recoverable);
    w.byte(b'\n');
}

// L, and layers.
fn put_layers_line(w: &mut Writer, temps: &[f64])
    requires { (length temps.now ≤ max_layers) × (w.old.at ≤ head_bytes + totals_bytes) }
    ensures puts { Writes w.old (layers_line (length temps.now) temps.now) w.new }
    ensures within { w.new.at ≤ w.old.at + layers_bytes }
{
    w.byte(b'L');
    put_all(w, temps);
    w.byte(b'\n');
}

fn put_heater_line(w: &mut Writer, line: HeaterLine)
    requires { w.old.at ≤ max_text }
    ensures puts { Writes w.old (heater_line line) w.new }
    ensures within { w.new.at ≤ w.old.at + heater_bytes }
{
    w.byte(b'H');
    w.number(usize::from(line.flag));
    w.double(line.adjusted);
    w.double(line.supplied);
    w.double(line.losses);
    w.number(line.rounds);
    w.byte(b'\n');
}

// The lines of heaters, in an order.
// Kept: a loop beside that of `put_all`: over an iterator its promise would speak of all that one may yield, which is longer than these two lines.
// Kept: `length ≤ max_heaters`, and each entry below it, asked: an entry indexes the lines, and a type for an order would be taken apart at each.
fn put_heater_lines(w: &mut Writer, order: &[usize], lines: &[HeaterLine; MAX_HEATERS])
    requires { (length order.now ≤ max_heaters) × (w.old.at ≤ before_heaters)
        × ((k : ℕ) → k < length order.now → get_or order.now k 0 < max_heaters) }
    ensures puts { Writes w.old (heater_lines (length order.now) order.now lines.now) w.new }
    ensures within { w.new.at ≤ w.old.at + heater_bytes * length order.now }
{
    for h in order {
        put_heater_line(w, lines[*h]);
    }
}

// E, a number and the record's start.
pub fn refusal_line(buf: &mut [u8], number: u8, offset: usize) -> usize
    ensures { PutWhole (refusal_line number offset) buf.old buf.new result }
{
    let mut w = Writer { buf, at: 0 };
    w.byte(b'E');
    w.number(usize::from(number));
    w.number(offset);
    w.byte(b'\n');
    w.at
}

// A refused step's lines: its head, and the layers as they were.
pub fn refused_lines(
    buf: &mut [u8],
    index: usize,
    refusal: Refusal,
    layers: usize,
    temps: &[f64; MAX_LAYERS],
) -> usize
    ensures { PutWhole (refused_lines index (number_of refusal) layers temps.now) buf.old buf.new result }
{
    let mut w = Writer { buf, at: 0 };
    put_head(&mut w, index, refusal.number());
    w.byte(b'\n');
    put_layers_line(&mut w, &temps[..layers.min(MAX_LAYERS)]);
    w.at
}

// An accepted step's lines: its head with the totals, the layers, and the heaters in an order.
pub fn accepted_lines(
    buf: &mut [u8],
    index: usize,
    report: &Report,
    layers: usize,
    temps: &[f64; MAX_LAYERS],
    order: &[usize],
) -> usize
    requires { (length order.now ≤ max_heaters) × ((k : ℕ) → k < length order.now → get_or order.now k 0 < max_heaters) }
    ensures { PutWhole (accepted_lines index report.now layers temps.now (length order.now) order.now) buf.old buf.new result }
{
    let mut w = Writer { buf, at: 0 };
    put_head(&mut w, index, 0);
    put_totals(&mut w, report);
    put_layers_line(&mut w, &temps[..layers.min(MAX_LAYERS)]);
    put_heater_lines(&mut w, order, &report.lines);
    w.at
}
