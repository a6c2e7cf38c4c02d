// The two public jobs, Translate and Answer, for any bytes.
// The definitions are in specs/: Jobs has the order of refusals and what each buffer holds afterwards.
#![tactic(auto)]

ghost use Rattle.std.specs.Prelude.{◌≡◌, ◌+◌, ◌*◌, ◌≤◌, ◌<◌, ℕ, true, false, length};
ghost use Rattle.catalogue.specs.Fault as fault;
ghost use Rattle.store.specs.Layout as layout;
ghost use Rattle.word.specs.Header.{count_at};
ghost use Rattle.word.specs.Refusal.{fine, said};
ghost use Rattle.filter.specs.Jobs.{tree_fits, tree_of, Translated, Answered};
ghost use Rattle.resolve.specs.Sizes.{sums_of};
ghost use Rattle.label.specs.Levels.{select_in, tree_in, LeftViewIn, ViewedIn};
ghost use Rattle.filter.specs.Steps.{TreeGiven, BothGiven};

use resolve::{Files, Source, Sums};
use word::{Reason, Refusal};

// Whether a tree of so many records has few enough, and a buffer of so many bytes takes its file.
fn fits(size: usize, room: usize) -> bool
    ensures yes { result ≡ true → (size ≤ 8190) × (8 + 8 * size ≤ room) }
    ensures no { result ≡ false → size ≤ 8190 → room < 8 + 8 * size }
{
    size <= 8190 && 8 + 8 * size <= room
}

// The number of records of the tree of a resolved view, whose parts take so many records, with the notes and ends that were left of it; the tree is
// in its buffer. Refused if it needs more records than 8,190 or than the buffer holds.
fn written(
    source: &Source,
    sums: Sums,
    q: u16,
    notes: &[u64],
    ends: &[u64],
    tree: &mut [u8],
) -> Result<usize, Refusal>
    requires viewed { ViewedIn source.now }
    requires left { LeftViewIn source.now notes.now ends.now }
    requires summed { sums ≡ sums_of source.now.files.k (select_in source.now) }
    ensures { TreeGiven (tree_fits (length tree.old) (tree_in source.now q)) tree.old tree.new (said result) }
{
    let size = label::measure(source, q, sums);
    if fits(size, tree.len()) {
        label::write_tree(source, q, size as u16, notes, ends, tree);
        Ok(size)
    } else {
        Err(Refusal {
            reason: Reason::TreeTooLarge,
            place: 0,
        })
    }
}

// A view over an accepted catalogue: its structure, its names and types, its tree.
fn tree_of(
    cat: &[u8],
    tables: usize,
    view: &[u8],
    k: u16,
    q: u16,
    tree: &mut [u8],
) -> Result<usize, Refusal>
    requires { fault.check_of cat.now ≡ fine tables }
    ensures { TreeGiven (tree_of cat.now view.now k q (length tree.old)) tree.old tree.new (said result) }
{
    // The notes and ends are made first: after a `?` they would be cleared twice, once at the entry.
    let mut notes = [0u64; 1024];
    let mut ends = [0u64; 33];
    let n = view::check(view)?;
    let nc = usize::from(word::u16_at(cat, 6));
    let starts = catalogue::starts(cat, nc);
    let source = Source {
        cat,
        starts: &starts,
        view,
        files: Files { nc, tables, n, k },
    };
    let sums = resolve::whole(&source, &mut notes, &mut ends)?;
    written(&source, sums, q, &notes, &ends, tree)
}

/// TRANSLATE: the tree of a view, for the class k of its constants and the clearance q, into the buffer `tree`; answers its number of records.
/// A refusal leaves the buffer as it was. The refusals and their order are in specs/Jobs.
pub fn translate(cat: &[u8], view: &[u8], k: u16, q: u16, tree: &mut [u8]) -> Result<usize, Refusal>
    ensures { Translated cat.now view.now k q tree.old tree.new (said result) }
{
    let tables = catalogue::check(cat)?;
    tree_of(cat, tables, view, k, q, tree)
}

// The tree and then the answer, over an accepted catalogue and store; refused, too, if the answer doesn't fit its buffer or 65,535 rows.
fn answer_over(
    cat: &[u8],
    tables: usize,
    view: &[u8],
    k: u16,
    q: u16,
    tree: &mut [u8],
    store: &[u8],
    out: &mut [u8],
) -> Result<usize, Refusal>
    requires cat_value { fault.check_of cat.now ≡ fine tables }
    requires store_value { layout.check_of cat.now (count_at cat.now) tables store.now ≡ fine tt }
    ensures { BothGiven cat.now view.now k q store.now tree.old out.old tree.new out.new (said result) }
{
    tree_of(cat, tables, view, k, q, tree)?;
    let Some(rows) = run::answer(tree, cat, store, q, out) else {
        return Err(Refusal {
            reason: Reason::AnswerTooLarge,
            place: 0,
        });
    };
    Ok(rows)
}

/// ANSWER: the same with a store, and the tree's answer over it into the buffer `out`; answers its number of rows.
/// An answer that doesn't fit leaves the tree in its buffer; any other refusal leaves both buffers as they were.
pub fn answer(
    cat: &[u8],
    view: &[u8],
    k: u16,
    q: u16,
    tree: &mut [u8],
    store: &[u8],
    out: &mut [u8],
) -> Result<usize, Refusal>
    ensures { Answered cat.now view.now k q store.now tree.old out.old tree.new out.new (said result) }
{
    let tables = catalogue::check(cat)?;
    let nc = usize::from(word::u16_at(cat, 6));
    store::check_over(cat, nc, tables, store)?;
    answer_over(cat, tables, view, k, q, tree, store, out)
}
