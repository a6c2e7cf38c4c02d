// SELECT: the root's block, all its values, and the answer for a whole view.
// The walk over a value is `value`.
ghost use Rattle.std.specs.Prelude.{◌≡◌};
ghost use Rattle.word.specs.Refusal.{said};
ghost use Rattle.scope.specs.Table.{infos_of};
ghost use Rattle.resolve.specs.Notes.{NotedAll, NotedView, EndedAll, EndedView};
ghost use Rattle.resolve.specs.Claims.{AcceptedIn, RootedIn, SeveralIn, values_in, root_in, view_in, verdict_of, verdict_all};

use crate::blocks::open_block;
use crate::notes::{end_note, leave};
use crate::steps::{plus, wrong_type};
use crate::{Source, Sums, value};
use word::{Reason, Refusal};

/// So many values from record `at` on, under the root's scope alone: the records of their data and classes; their notes, and from place 1 on their ends.
fn values(
    source: &Source,
    at: usize,
    held: &mut [scope::Scope; 16],
    count: usize,
    notes: &mut [u64; 1024],
    ends: &mut [u64],
) -> Result<usize, Refusal>
    requires { SeveralIn source.now held.old count at }
    ensures value { said result ≡ verdict_all source.now.files.k (infos_of held.old 1) (values_in source.now held.old count at) }
    ensures noted_all { NotedAll (values_in source.now held.old count at) at notes.old notes.new }
    ensures ended_all { EndedAll source.now.files.k (infos_of held.old 1) (values_in source.now held.old count at) at 1 ends.old ends.new }
    ensures held_unchanged { held.new ≡ held.old }
{
    let mut next = at;
    let mut pairs: u16 = 0;
    for j in 0..count {
        let known = value(source, next, 15, held, 1, notes)?;
        leave(ends, j + 1, end_note(known));
        pairs = plus(pairs, plus(known.values, known.classes));
        next = usize::from(known.next);
    }
    Ok(usize::from(pairs))
}

/// The root's block: its tables, its where, its values; last, that the where is boolean.
fn root(
    source: &Source,
    tables: usize,
    count: usize,
    notes: &mut [u64; 1024],
    ends: &mut [u64],
) -> Result<Sums, Refusal>
    requires { RootedIn source.now tables count }
    ensures value { said result ≡ verdict_of source.now.files.k (root_in source.now tables count) }
    ensures noted_view { NotedView (root_in source.now tables count) notes.old notes.new }
    ensures ended_view { EndedView source.now.files.k (root_in source.now tables count) ends.old ends.new }
{
    let own = open_block(source, 1, tables)?;
    let mut held = [own; 16];
    let test = value(source, 1 + tables, 15, &mut held, 1, notes)?;
    leave(ends, 0, end_note(test));
    let first = usize::from(test.next);
    let pairs = values(source, first, &mut held, count, notes, ends)?;
    if test.ty != cell::Type::Boolean {
        return Err(wrong_type(0));
    }
    Ok(Sums {
        info: test.info,
        values: usize::from(test.values),
        classes: usize::from(test.classes),
        pairs,
    })
}

/// A whole view, whose structure was taken: its names and types, and how many records its parts take; its notes, and the ends of its where and of its values.
pub fn whole(source: &Source, notes: &mut [u64; 1024], ends: &mut [u64]) -> Result<Sums, Refusal>
    requires { AcceptedIn source.now }
    ensures value { said result ≡ verdict_of source.now.files.k (view_in source.now) }
    ensures noted_view { NotedView (view_in source.now) notes.old notes.new }
    ensures ended_view { EndedView source.now.files.k (view_in source.now) ends.old ends.new }
{
    let view::Node::Select(tables, count) = view::node_at(source.view, 0) else {
        return Err(Refusal {
            reason: Reason::WrongPlace,
            place: 0,
        });
    };
    root(source, usize::from(tables), usize::from(count), notes, ends)
}
