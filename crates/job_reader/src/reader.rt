// The reader that carries its bytes: the lent slice and a place in it.
ghost use Rattle.std.specs.Prelude.{◌≡◌};
ghost use Rattle.job_records.specs.ReadValues.{RecordRead};
ghost use Rattle.job_reader.specs.Reader.{new_reader, bytes_left, NextRead};

use job_records::{Before, Reading};

#[derive(Drop)]
pub struct JobReader<'a> {
    pub bytes: &'a [u8],
    pub at: usize,
}

impl<'a> JobReader<'a> {
    // A job's bytes, from their start.
    pub fn new(bytes: &'a [u8]) -> JobReader<'a>
        ensures { result ≡ new_reader bytes.entry }
    {
        JobReader { bytes, at: 0 }
    }

    // The next record, by what came before it; the reader moves past it, and stays where it is if the record is refused.
    pub fn next(&mut self, before: Before) -> Reading
        ensures { NextRead self.old before result self.new }
    {
        let r = crate::read::read_record(self.bytes, self.at, before);
        self.at = r.next;
        r
    }

    // How many bytes are left to read: none if its place is past the end.
    pub fn left(self) -> usize
        ensures { result ≡ bytes_left self.entry.bytes.now self.entry.at }
    {
        self.bytes.len().saturating_sub(self.at)
    }
}

// The record at a place, through a reader made there: whoever calls this one needs no reader of their own.
pub fn read_at(bytes: &[u8], at: usize, before: Before) -> Reading
    ensures { RecordRead bytes.now at before result }
{
    let mut reader = JobReader { bytes, at };
    reader.next(before)
}
