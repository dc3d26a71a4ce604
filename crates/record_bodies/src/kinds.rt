// A record whose 4 bytes of length and 2 of kind are there, and the bytes that its length says: the body of its kind, or a refusal.
// Kept: (s, at), a position in the lent bytes: 01 states a record by positions, and a refusal answers the record's start.
ghost use Rattle.std.specs.Prelude.{◌≡◌, ◌+◌, ◌*◌, ◌≤◌, length};
ghost use Rattle.working_order.specs.Order.{max_heaters};
ghost use Rattle.job_records.specs.Bytes.{u32_at};
ghost use Rattle.job_records.specs.Records.{tank_at, heater_record_at, heater_at, step_at, by_kind, reading_at};
ghost use Rattle.job_records.specs.Fields.{step_volumes_at};

use crate::fields::{are_presence_bytes, settings_at, volumes_at};
use draw_events::event::MAX_EVENTS;
use job_records::bytes::{f64_at, u16_at};
use job_records::{Before, Reading, Record, TankRecord};
use refusals::Refusal;
use tank_model::{Heater, Step};

// A record in lent bytes, where as many stand as its length says, and what came before it.
#[derive(Clone, Copy)]
struct WholeRecord<'a> {
    bytes: &'a [u8],
    at: usize,
    size: usize,
    before: Before,
    ghost whole: { (at + 4 + size ≤ length bytes.now) × (size ≡ u32_at bytes.now at) },
    ghost few_heaters: { before.heaters ≤ max_heaters },
}

impl WholeRecord<'_> {
    // Kind 1: once, and before all others.
    #[tactic(auto, unfolding(job_records::specs::Records::tank_at))]
    fn tank(&self) -> Result<Record, Refusal>
        ensures { result ≡ tank_at self.now.bytes.now self.now.at self.now.before }
    {
        let (s, at, before) = (self.bytes, self.at, self.before);
        if self.size != 60 || before.tank || before.heaters != 0 || before.step {
            return Err(Refusal::Record);
        }
        Ok(Record::Tank(TankRecord {
            layers: usize::from(u16_at(s, at + 6)),
            volume: f64_at(s, at + 8),
            standby: f64_at(s, at + 16),
            initial: f64_at(s, at + 24),
            rho: f64_at(s, at + 32),
            cp: f64_at(s, at + 40),
            ambient: f64_at(s, at + 48),
            timestep: f64_at(s, at + 56),
        }))
    }

    // Kind 2: after a tank and before any step.
    #[tactic(auto, unfolding(job_records::specs::Records::heater_at, job_records::specs::Records::heater_record_at))]
    fn heater(&self) -> Result<Record, Refusal>
        ensures { result ≡ heater_at self.now.bytes.now self.now.at self.now.before }
    {
        let (s, at) = (self.bytes, self.at);
        if self.size != 27 || !self.before.tank || self.before.step {
            return Err(Refusal::Record);
        }
        // An absent thermostat's double is not looked at.
        // Kept: 0 and 1 as numbers: 01 writes by a byte whether a thermostat has a position of its own.
        let thermostat = match s[at + 22] {
            0 => None,
            1 => Some(f64_at(s, at + 23)),
            _ => return Err(Refusal::Record),
        };
        Ok(Record::Heater(Heater {
            rated: f64_at(s, at + 6),
            position: f64_at(s, at + 14),
            thermostat,
        }))
    }

    // Kind 3: after a tank.
    #[tactic(auto, unfolding(job_records::specs::Records::step_at, job_records::specs::Records::step_fields_at))]
    fn step(&self) -> Result<Record, Refusal>
        ensures { result ≡ step_at self.now.bytes.now self.now.at self.now.before }
    {
        if self.size < 12 {
            return Err(Refusal::Record);
        }
        let (s, at) = (self.bytes, self.at);
        let heaters = self.before.heaters;
        let events = usize::from(u16_at(s, at + 14));
        if self.size != 12 + 8 * events + 17 * heaters || !self.before.tank {
            return Err(Refusal::Record);
        }
        let entries = at + 16 + 8 * events;
        if !are_presence_bytes(s, entries, heaters) {
            return Err(Refusal::Record);
        }
        Ok(Record::Step(Step {
            feed: f64_at(s, at + 6),
            events,
            volumes: step_volumes(s, at + 16, events),
            entries: heaters,
            settings: settings_at(s, entries, heaters),
        }))
    }

    // By the kind.
    #[tactic(auto, unfolding(job_records::specs::Records::by_kind))]
    fn content(&self) -> Result<Record, Refusal>
        requires { self.now.at + 6 ≤ length self.now.bytes.now }
        ensures { result ≡ by_kind self.now.bytes.now self.now.at self.now.before }
    {
        // Kept: 1, 2 and 3 as numbers: 01 writes a record's kind so, and this match is where it becomes a `Record`.
        let kind = u16_at(self.bytes, self.at + 4);
        match kind {
            1 => self.tank(),
            2 => self.heater(),
            3 => self.step(),
            _ => Err(Refusal::Record),
        }
    }
}

// The volumes of a step: past 64 only their count is kept.
#[tactic(auto, unfolding(job_records::specs::Fields::step_volumes_at))]
fn step_volumes(s: &[u8], at: usize, events: usize) -> [f64; MAX_EVENTS]
    requires { at + 8 * events ≤ length s.now }
    ensures { result ≡ step_volumes_at s.now at events }
{
    if events > MAX_EVENTS {
        return [0.0; MAX_EVENTS];
    }
    volumes_at(s, at, events)
}

// A record whose length and kind are there, by its kind: past its length and what that counts, or at the same position where it is refused.
pub fn record_at(s: &[u8], at: usize, size: usize, before: Before) -> Reading
    requires { (at + 6 ≤ length s.now) × (at + 4 + size ≤ length s.now) × (size ≡ u32_at s.now at) × (before.heaters ≤ max_heaters) }
    ensures { result ≡ reading_at s.now at (by_kind s.now at before) }
{
    let record = WholeRecord {
        bytes: s,
        at,
        size,
        before,
    };
    let content = record.content();
    let next = match content {
        Ok(_) => at + 4 + size,
        Err(_) => at,
    };
    Reading { content, next }
}
