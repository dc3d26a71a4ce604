// The record at a position: 4 bytes of length, 2 of kind, and the body of its kind.
ghost use Rattle.std.specs.Prelude.{◌≡◌};
ghost use Rattle.job_records.specs.Records.{read_record};
ghost use Rattle.job_records.specs.ReadValues.{RecordRead};

use job_records::bytes::u32_at;
use job_records::{Before, Reading};
use record_bodies::kinds::record_at;
use refusals::Refusal;
use working_order::MAX_HEATERS;

// A record that is cut short is refused before its kind is looked at.
#[tactic(auto, unfolding(job_records::specs::Records::content_at, job_records::specs::Records::read_record))]
fn reading_at(s: &[u8], at: usize, before: Before) -> Reading
    ensures { result ≡ read_record s.now at before }
{
    let refused = Reading {
        content: Err(Refusal::Record),
        next: at,
    };
    if before.heaters > MAX_HEATERS || s.len() < at || s.len() - at < 6 {
        return refused;
    }
    let size = u32_at(s, at) as usize;
    if s.len() - at - 4 < size {
        return refused;
    }
    record_at(s, at, size, before)
}

// The call: the record at a position, by what came before it.
pub fn read_record(s: &[u8], at: usize, before: Before) -> Reading
    ensures { RecordRead s.now at before result }
{
    reading_at(s, at, before)
}
