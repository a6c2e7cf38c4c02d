// A buffer that is written from its start.
ghost use Rattle.std.specs.Prelude.{◌≡◌, ◌+◌, ◌≤◌, length};
ghost use Rattle.word.specs.Writer.{Writes};
ghost use Rattle.word.specs.Record.{rec_bytes};
ghost use Rattle.word.specs.Header.{header};

use crate::Record;

/// A lent buffer, and the place where it is written next.
#[derive(Drop)]
pub struct Writer<'a> {
    pub out: &'a mut [u8],
    pub at: usize,
}

impl<'a> Writer<'a> {
    /// One record.
    #[tactic(auto, unfolding(crate::specs::Record::rec_bytes))]
    pub fn put(&mut self, value: Record)
        requires { self.old.at + 8 ≤ length self.old.out.now }
        ensures bytes { Writes (rec_bytes value.kind value.op value.a value.b value.c) self.old self.new }
        ensures place { self.new.at ≡ self.old.at + 8 }
        ensures long { length self.new.out.now ≡ length self.old.out.now }
    {
        self.at = crate::put_record(self.out, self.at, value);
    }

    /// A header: the mark, version 1, the count.
    #[tactic(auto, using(crate::proofs::Laws::length_header))]
    pub fn header(&mut self, mark: &[u8], count: u16)
        requires four { length mark.now ≡ 4 }
        requires room { self.old.at + 8 ≤ length self.old.out.now }
        ensures bytes { Writes (header mark.now count) self.old self.new }
        ensures place { self.new.at ≡ self.old.at + 8 }
        ensures long { length self.new.out.now ≡ length self.old.out.now }
    {
        self.at = crate::header_at(self.out, self.at, mark, count);
    }
}
