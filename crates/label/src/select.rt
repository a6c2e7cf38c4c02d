// SELECT: the tests of its where, the pairs of its values, and the whole tree file.
// The definitions are in specs/Whole, and in specs/Left what the walk left of its where and its values.
ghost use Rattle.std.specs.Prelude.{◌≡◌, cond, ◌+◌, ◌*◌, ◌≤◌, length};
ghost use Rattle.class.specs.Class.{dominatesb};
ghost use Rattle.resolve.specs.Sizes.{capped, sums_of};
ghost use Rattle.word.specs.Buffer.{Wrote, Room};
ghost use Rattle.word.specs.Writer.{Writes};
ghost use Rattle.scope.specs.Entry.{Among};
ghost use Rattle.tree.specs.Tree.{encode, tree_file, size_select};
ghost use Rattle.tree.specs.Trans.{fixed, as_tree, info_of};
ghost use Rattle.tree.specs.Select.{test};
ghost use Rattle.tree.specs.Levels.{AcceptedIn, Fits};
ghost use Rattle.label.specs.Left.{end_in, known_in};
ghost use Rattle.label.specs.Levels.{class_in, ViewedIn, select_in, tree_in, LeftViewIn, AcceptsIn, LeftAllIn, pairs_in};
ghost use Rattle.label.specs.Rows.{row_item, rows_in};
ghost use Rattle.label.specs.Whole.{flat, test_bytes, test_size, classes_in, dom_bytes};

use crate::{rows, write_open};
use tree::{Level, kinds};
use word::{Record, Writer};

// The op of BINOP `and`.
const AND: u8 = 5;

// and(DOM(CLASS q, ..
fn write_dom(q: u16, writer: &mut Writer)
    requires { Fits (dom_bytes q) writer.old }
    ensures { Writes (dom_bytes q) writer.old writer.new }
{
    writer.put(Record {
        op: AND,
        ..kinds::BINOP
    });
    writer.put(kinds::DOM);
    writer.put(Record {
        a: q,
        ..kinds::CLASS
    });
}

// The test of a fixed class, left out where q dominates it.
fn write_fixed_test(q: u16, k: u16, writer: &mut Writer)
    requires { Fits (flat (test q (fixed k))) writer.old }
    ensures { Writes (flat (test q (fixed k))) writer.old writer.new }
{
    if class::dominates(q, k) {
        return;
    }
    write_dom(q, writer);
    writer.put(Record {
        a: k,
        ..kinds::CLASS
    });
}

// The test of the row class of table j.
fn write_row_test(s: scope::Scope, cat: &[u8], n: usize, j: usize, q: u16, writer: &mut Writer)
    requires among { (8 + 8 * n ≤ length cat.now) × Among n s × (j ≤ 4) }
    requires room { Fits (flat (test q (row_item (rows_in cat.now n s) j))) writer.old }
    ensures { Writes (flat (test q (row_item (rows_in cat.now n s) j))) writer.old writer.new }
{
    if class::dominates(q, scope::row_info(s, cat, n, j).bound()) {
        return;
    }
    write_dom(q, writer);
    writer.put(rows::one(s, cat, n, j));
}

// The tests of so many tables.
fn write_tests(s: scope::Scope, cat: &[u8], n: usize, q: u16, count: usize, writer: &mut Writer)
    requires among { (8 + 8 * n ≤ length cat.now) × Among n s × (count ≤ 4) }
    requires room { Fits (test_bytes q (classes_in cat.now n s) (rows_in cat.now n s) 0 count) writer.old }
    ensures { Writes (test_bytes q (classes_in cat.now n s) (rows_in cat.now n s) 0 count) writer.old writer.new }
{
    for j in 0..count {
        write_fixed_test(q, scope::table_class_at(s, cat, n, j), writer);
        write_row_test(s, cat, n, j, q, writer);
    }
}

// The class of the value at a record, of which `info` is known, as a tree: one record where it is fixed.
fn write_known(
    level: &Level,
    at: usize,
    info: class::Info,
    writer: &mut Writer,
    pad: &mut [u64; 1024],
)
    requires accepted { AcceptedIn level.now at }
    requires known { info ≡ info_of (class_in level.now at) }
    requires room { Fits (encode (as_tree (class_in level.now at))) writer.old }
    ensures { Writes (encode (as_tree (class_in level.now at))) writer.old writer.new }
{
    match info {
        class::Info::Fixed(k) => writer.put(Record {
            a: k,
            ..kinds::CLASS
        }),
        class::Info::Bound(_) => write_open(level, at, writer, pad),
    }
}

// The record after a value, by its end w.
// Stays: an end is a number, since resolve's definition `ends_of` has these numbers.
#[tactic(auto, unfolding(crate::specs::Left::end_in))]
fn end_in(w: u64) -> usize
    ensures { result ≡ end_in w }
{
    (w % 65536) as usize
}

// What is known of a value's class, by its end w.
#[tactic(auto, unfolding(crate::specs::Left::known_in))]
fn known_in(w: u64) -> class::Info
    ensures { result ≡ known_in w }
{
    let op = (w / 4294967296 % 256) as u8;
    let upper = (w / 65536 % 65536) as u16;
    class::Info::by_op(op, upper)
}

// The test of the class of the where at a record, of which `info` is known.
fn write_where_test(
    level: &Level,
    at: usize,
    info: class::Info,
    q: u16,
    writer: &mut Writer,
    pad: &mut [u64; 1024],
)
    requires accepted { AcceptedIn level.now at }
    requires known { info ≡ info_of (class_in level.now at) }
    requires room { Fits (flat (test q (class_in level.now at))) writer.old }
    ensures { Writes (flat (test q (class_in level.now at))) writer.old writer.new }
{
    if class::dominates(q, info.bound()) {
        return;
    }
    write_dom(q, writer);
    write_known(level, at, info, writer, pad);
}

// The pairs of data and class of so many values from a record on, the data from their notes; their ends are the words of `ends` after the first.
// The level is that of SELECT's block.
fn write_pairs(
    level: &Level,
    at: usize,
    count: usize,
    notes: &[u64],
    ends: &[u64],
    writer: &mut Writer,
    pad: &mut [u64; 1024],
)
    requires root { (level.now.deep ≡ 1) × (level.now.depth ≡ 15) }
    requires accepts { AcceptsIn level.now count at }
    requires left_all { LeftAllIn level.now notes.now ends.now count at }
    requires room { Fits (pairs_in level.now count at) writer.old }
    ensures { Writes (pairs_in level.now count at) writer.old writer.new }
{
    let source = level.source;
    let mut m = at;
    for j in 0..count {
        let end = ends[1 + j];
        let next = end_in(end);
        tree::write_noted(source.view, notes, m, next, writer);
        write_known(level, m, known_in(end), writer, pad);
        m = next;
    }
}

// The tree's file; its count of records is known, and there is room.
fn write_file(
    source: &resolve::Source,
    q: u16,
    count: u16,
    notes: &[u64],
    ends: &[u64],
    writer: &mut Writer,
    pad: &mut [u64; 1024],
)
    requires viewed { ViewedIn source.now }
    requires left_view { LeftViewIn source.now notes.now ends.now }
    requires count_value { count ≡ size_select (tree_in source.now q) }
    requires room { Fits (tree_file (tree_in source.now q)) writer.old }
    ensures { Writes (tree_file (tree_in source.now q)) writer.old writer.new }
{
    let view = source.view;
    let view::Node::Select(tables, values) = view::node_at(view, 0) else {
        return;
    };
    let m = tables as usize;
    let s = tree::block_scope(source, 1, m);
    let scopes = [s; 16];
    let level = Level {
        source: &*source,
        scopes: &scopes,
        deep: 1,
        depth: 15,
    };
    writer.header(b"DRT\0", count);
    writer.put(Record {
        a: tables,
        b: values,
        ..kinds::SELECT
    });
    tree::table_recs(source, 1, m, writer);
    write_tests(s, source.cat, source.files.nc, q, m, writer);
    let end = ends[0];
    let first = end_in(end);
    write_where_test(&level, 1 + m, known_in(end), q, writer, pad);
    tree::write_noted(view, notes, 1 + m, first, writer);
    write_pairs(&level, first, values as usize, notes, ends, writer, pad);
}

/// The whole tree of an accepted view, under clearance q, with the notes and ends that were left of it, into a buffer that has room for its `count` records.
/// Returns the place after it.
pub fn write_tree(
    source: &resolve::Source,
    q: u16,
    count: u16,
    notes: &[u64],
    ends: &[u64],
    out: &mut [u8],
) -> usize
    requires viewed { ViewedIn source.now }
    requires left_view { LeftViewIn source.now notes.now ends.now }
    requires count_value { count ≡ size_select (tree_in source.now q) }
    requires room { Room out.old 0 (tree_file (tree_in source.now q)) }
    ensures { Wrote out.old 0 (tree_file (tree_in source.now q)) out.new result }
{
    // The pad is made first: a function that makes it later clears it twice.
    let mut pad = [0u64; 1024];
    let mut writer = Writer { out, at: 0 };
    write_file(source, q, count, notes, ends, &mut writer, &mut pad);
    writer.at
}

// The sum, at most 8,191.
fn plus(m: usize, n: usize) -> usize
    ensures { result ≡ capped (m + n) }
{
    m.saturating_add(n).min(8191)
}

// How many records a test before the rest of a where takes, of a class with bound b whose tree has n: none where q dominates b.
fn test_size(q: u16, b: u16, n: usize) -> usize
    ensures { result ≡ cond (dominatesb q b) 0 (capped (3 + n)) }
{
    if class::dominates(q, b) {
        return 0;
    }
    plus(3, n)
}

// How many the tests of the tables from table j on take.
// Stays: a recursion, since the sums stop just above 8,190 at each step from the last table back, as the definition's do.
fn tests_size(s: scope::Scope, cat: &[u8], n: usize, q: u16, j: usize, left: usize) -> usize
    requires { (8 + 8 * n ≤ length cat.now) × Among n s × (j + left ≤ 4) }
    ensures { result ≡ capped (test_size q (classes_in cat.now n s) (rows_in cat.now n s) j left) }
{
    if left == 0 {
        return 0;
    }
    let x = test_size(q, scope::table_class_at(s, cat, n, j), 1);
    let y = test_size(q, scope::row_info(s, cat, n, j).bound(), 1);
    let z = tests_size(s, cat, n, q, j + 1, left - 1);
    plus(x, plus(y, z))
}

/// How many records the tree of an accepted view takes under clearance q, stopped just above 8,190: its tables, the tests, and what its parts were found to take.
pub fn measure(source: &resolve::Source, q: u16, sums: resolve::Sums) -> usize
    requires viewed { ViewedIn source.now }
    requires sums_value { sums ≡ sums_of source.now.files.k (select_in source.now) }
    ensures { result ≡ capped (size_select (tree_in source.now q)) }
{
    let view = source.view;
    let view::Node::Select(tables, _) = view::node_at(view, 0) else {
        return 0;
    };
    let m = tables as usize;
    let s = tree::block_scope(source, 1, m);
    let a = tests_size(s, source.cat, source.files.nc, q, 0, m);
    let b = test_size(q, sums.info.bound(), sums.classes);
    plus(plus(1 + m, a), plus(plus(b, sums.values), sums.pairs))
}
