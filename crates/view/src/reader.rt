// A reader that remembers its place in the lent view bytes: few and thin functions, so that the walk says only what stands where.
ghost use Rattle.std.specs.Prelude.{◌≡◌, ◌+◌, ◌*◌, ◌≤◌, ◌<◌, length};
ghost use Rattle.word.specs.Refusal.{said};
ghost use Rattle.view.specs.Parse.{peek_of};

use crate::{Node, is_in_rule, node_of};
use word::{Reason, Refusal};

/// The lent bytes of a view, the number of its records, and the number of the record at the reader's place.
#[derive(Drop)]
pub struct Reader<'a> {
    pub view: &'a [u8],
    pub count: u16,
    pub place: u16,
    ghost whole: { 8 + 8 * count ≤ length view.now },
}

impl<'a> Reader<'a> {
    /// A reader at the first record of a view.
    pub fn new(view: &'a [u8], count: u16) -> Self
        requires { 8 + 8 * count ≤ length view.now }
        ensures view { result.view ≡ view.entry }
        ensures count { result.count ≡ count }
        ensures place { result.place ≡ 0 }
    {
        Reader {
            view,
            count,
            place: 0,
        }
    }

    /// The node at the reader's place, or why there is none: the view ends early, or the record says nothing.
    #[tactic(auto, using(crate::proofs::Turns::peeks))]
    #[inline(always)]
    pub fn peek(&self) -> Result<Node, Refusal>
        ensures { said result ≡ peek_of self.now.view.now self.now.count self.now.place }
    {
        if self.count <= self.place {
            return Err(Refusal {
                reason: Reason::WrongPlace,
                place: self.count,
            });
        }
        let fields = word::record_at(self.view, usize::from(self.place));
        if !is_in_rule(fields) {
            return Err(Refusal {
                reason: Reason::FieldOutOfRule,
                place: self.place,
            });
        }
        Ok(node_of(fields))
    }

    /// Moves on by one record.
    pub fn next(&mut self)
        requires { self.old.place < self.old.count }
        ensures place { self.new.place ≡ self.old.place + 1 }
        ensures view { self.new.view ≡ self.old.view }
        ensures count { self.new.count ≡ self.old.count }
    {
        self.place += 1;
    }
}
