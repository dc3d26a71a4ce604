// The lines of a step's history.
// Kept: the room is asked of each call and `within` told by each: each text takes some, so a type that kept it would have to be told again after each.
ghost use Rattle.std.specs.Prelude.{◌+◌, ◌≤◌};
ghost use Rattle.working_order.specs.Order.{max_heaters};
ghost use Rattle.job_lines.specs.Put.{Writes, PutWhole};
ghost use Rattle.job_lines.specs.Lengths.{double_bytes, max_place};
ghost use Rattle.job_history.specs.Lines.{point_text, points_text, course_text, outcome_text, turn_line, history_lines};
ghost use Rattle.job_history.specs.Lengths.{points_bytes, course_bytes, outcome_bytes, turn_bytes};

use crate::{TurnFact, Turns};
use job_lines::lines::put_head;
use job_lines::text::{Put, Writer, put_all};
use set_points::SetPoints;

// A space, and the set point or a hyphen.
fn put_point(w: &mut Writer, point: Option<f64>)
    requires { w.old.at + double_bytes ≤ max_place }
    ensures puts { Writes w.old (point_text point) w.new }
    ensures within { w.new.at ≤ w.old.at + double_bytes }
{
    match point {
        Some(x) => w.double(x),
        None => {
            w.byte(b' ');
            w.byte(b'-');
        }
    }
}

// The lower and the upper set point.
fn put_points(w: &mut Writer, p: SetPoints)
    requires { w.old.at + points_bytes ≤ max_place }
    ensures puts { Writes w.old (points_text p) w.new }
    ensures within { w.new.at ≤ w.old.at + points_bytes }
{
    put_point(w, p.lower());
    put_point(w, p.upper());
}

// T, the heater, its thermostat layer at the begin and at the end, and its set points.
fn put_course(w: &mut Writer, x: TurnFact)
    requires { w.old.at + course_bytes ≤ max_place }
    ensures puts { Writes w.old (course_text x) w.new }
    ensures within { w.new.at ≤ w.old.at + course_bytes }
{
    w.byte(b'T');
    w.number(x.heater);
    w.double(x.start);
    w.double(x.finish);
    put_points(w, x.points);
}

// Whether the heater ran, its flag, its supply and the rounds of its mixing, and the line's end.
fn put_outcome(w: &mut Writer, x: TurnFact)
    requires { w.old.at + outcome_bytes ≤ max_place }
    ensures puts { Writes w.old (outcome_text x) w.new }
    ensures within { w.new.at ≤ w.old.at + outcome_bytes }
{
    w.number(usize::from(x.ran));
    w.number(usize::from(x.flag));
    w.double(x.supplied);
    w.number(x.rounds);
    w.byte(b'\n');
}

impl Put for TurnFact {
    ghost text = { turn_line };

    ghost most = { turn_bytes };

    // The line of a turn.
    fn put(&self, w: &mut Writer) {
        put_course(w, *self);
        put_outcome(w, *self);
    }
}

// A step's history: its head, and a line for each turn.
pub fn history_lines(buf: &mut [u8], index: usize, number: u8, r: Turns) -> usize
    requires { r.count ≤ max_heaters }
    ensures { PutWhole (history_lines index number r) buf.old buf.new result }
{
    let mut w = Writer { buf, at: 0 };
    put_head(&mut w, index, number);
    w.byte(b'\n');
    put_all(&mut w, &r.facts[..r.count]);
    w.at
}
