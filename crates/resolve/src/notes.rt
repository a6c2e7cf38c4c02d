// What the walk notes of each record, for the writer of the data: one number each.
// The definitions are in specs/Notes.
// Stays: a note and an end are numbers, since the definitions `notes_of` and `ends_of`, over which the laws of tree and of label are stated, have these numbers.
ghost use Rattle.std.specs.Prelude.{◌≡◌, ◌+◌, ◌<◌, ◌≤◌, set};
ghost use Rattle.word.specs.Buffer.{put};
ghost use Rattle.resolve.specs.Notes.{found_note, end_note, marked_at, numbers_at};
ghost use Rattle.resolve.specs.Claims.{Tabled};

use crate::{Known, Source};

/// One note.
pub fn note(notes: &mut [u64; 1024], at: usize, w: u64)
    requires { at < 1024 }
    ensures { notes.new ≡ set notes.old at w }
{
    notes[at] = w;
}

/// One end; where there is no room it is dropped.
#[tactic(auto, using(crate::proofs::Noting::dropped))]
pub fn leave(ends: &mut [u64], j: usize, w: u64)
    ensures { ends.new ≡ set ends.old j w }
{
    if j < ends.len() {
        ends[j] = w;
    }
}

/// The note of what a name finds; 0 where it finds nothing, or more than one.
#[tactic(auto, unfolding(crate::specs::Notes::found_note, crate::specs::Notes::column_note, crate::specs::Notes::local_note))]
pub fn found_note(found: scope::Found) -> u64
    ensures { result ≡ found_note found }
{
    match found {
        scope::Found::Column {
            outward,
            table,
            column,
            ..
        } => u64::from(outward) + 65536 * u64::from(table) + 4294967296 * u64::from(column),
        scope::Found::Local { outward, .. } => 281474976710656 + u64::from(outward),
        _ => 0,
    }
}

/// The record after a value, and what is known of its class.
#[tactic(auto, unfolding(crate::specs::Notes::end_note))]
pub fn end_note(x: Known) -> u64
    ensures { result ≡ end_note x.next x.info }
{
    let next = u64::from(x.next);
    match x.info {
        class::Info::Fixed(k) => next + 65536 * u64::from(k),
        class::Info::Bound(b) => next + 65536 * u64::from(b) + 4294967296,
    }
}

/// The note of a limb's first record, where it is brought from its own type to another: CONV's 16p+s in the top byte.
#[tactic(auto, using(cell::proofs::Equal::equal_types), unfolding(crate::specs::Notes::marked_at))]
pub fn mark(notes: &mut [u64; 1024], at: usize, own: cell::Type, ty: cell::Type)
    requires { at < 1024 }
    ensures { notes.new ≡ marked_at notes.old at own ty }
{
    if own != ty {
        let m = (16 * u64::from(ty.digits()) + u64::from(ty.scale())) % 256;
        notes[at] = notes[at] % 72057594037927936 + 72057594037927936 * m;
    }
}

/// The TABLE records of a block, from record `at` on: the tables' numbers. All of the tables are in the catalogue.
pub fn tables(source: &Source, at: usize, count: usize, notes: &mut [u64; 1024])
    requires tabled { Tabled source.now.cat.now source.now.files.nc source.now.starts.now source.now.files.tables source.now.view.now at count }
    requires count_bound { at + count ≤ 1024 }
    ensures { notes.new ≡ put notes.old at (numbers_at source.now.cat.now source.now.files.nc source.now.view.now at count) }
{
    let files = source.files;
    for j in 0..count {
        let number = scope::table_number(
            source.cat,
            files.nc,
            source.starts,
            files.tables,
            source.view,
            at + j,
        );
        let Some(number) = number else {
            return;
        };
        note(notes, at + j, number as u64);
    }
}
