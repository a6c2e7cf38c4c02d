// The data of a value written from its notes, in one loop: each record of the view gives one of the tree, with CONV before it where its note is marked.
// The definitions are in specs/Noted.
// Stays: a note is a number, since resolve's definition `notes_of`, over which the law `noted_data` is stated, has these numbers.
ghost use Rattle.std.specs.Prelude.{◌≡◌, ◌+◌, ◌*◌, ◌/◌, ◌≤◌, length};
ghost use Rattle.word.specs.Writer.{Writes};
ghost use Rattle.view.specs.Record.{node_at};
ghost use Rattle.tree.specs.Tree.{rec_of};
ghost use Rattle.tree.specs.Levels.{Fits};
ghost use Rattle.tree.specs.Noted.{mark_bytes, name_bytes, plain_bytes, record_bytes, noted_bytes, notes_in, Stands, Noting};

use crate::kinds;
use word::{Record, Writer};

// The kinds of a view's records that a tree has in other words.
const BINOP: u8 = 7;

const TABLE: u8 = 12;

const COL: u8 = 14;

const CLASSOF: u8 = 15;

const LET: u8 = 16;

// CONV before a record, where the top byte m of its note isn't 0.
fn put_mark(m: u8, writer: &mut Writer)
    requires { Fits (mark_bytes m) writer.old }
    ensures { Writes (mark_bytes m) writer.old writer.new }
{
    if m == 0 {
        return;
    }
    writer.put(Record {
        op: m,
        ..kinds::CONV
    });
}

// COL by its note: DATA or LOCAL.
#[tactic(auto, unfolding(crate::specs::Noted::name_bytes))]
fn name(note: u64) -> Record
    ensures { rec_of result ≡ name_bytes note }
{
    let a = (note % 65536) as u16;
    if note / 281474976710656 % 256 != 0 {
        return Record { a, ..kinds::LOCAL };
    }
    Record {
        a,
        b: (note / 65536 % 65536) as u16,
        c: (note / 4294967296 % 65536) as u16,
        ..kinds::DATA
    }
}

// The record that record i of a view gives with its note: most are as they were.
fn plain(view: &[u8], i: usize, note: u64) -> Record
    requires i_in_bounds { 8 + 8 * i + 8 ≤ length view.now }
    requires stands { Stands (node_at view.now i) }
    ensures { rec_of result ≡ plain_bytes (node_at view.now i) note }
{
    let given = word::record_at(view, i);
    let a = (note % 65536) as u16;
    match given.kind {
        BINOP => Record {
            op: given.op,
            a,
            ..kinds::BINOP
        },
        TABLE => Record { a, ..kinds::TABLE },
        COL => name(note),
        CLASSOF => Record {
            a,
            b: (note / 65536 % 65536) as u16,
            c: (note / 4294967296 % 65536) as u16,
            ..kinds::CELL_CLASS
        },
        LET => kinds::BIND,
        _ => given,
    }
}

// The same, written, with CONV before it where the note is marked.
fn put_noted(view: &[u8], i: usize, note: u64, writer: &mut Writer)
    requires i_in_bounds { 8 + 8 * i + 8 ≤ length view.now }
    requires stands { Stands (node_at view.now i) }
    requires room { Fits (record_bytes (node_at view.now i) note) writer.old }
    ensures { Writes (record_bytes (node_at view.now i) note) writer.old writer.new }
{
    let mark = (note / 72057594037927936) as u8;
    put_mark(mark, writer);
    writer.put(plain(view, i, note));
}

/// The records of a value from record `at` on, before `end`, each with its note.
pub fn write_noted(view: &[u8], notes: &[u64], at: usize, end: usize, writer: &mut Writer)
    requires noting { Noting view.now notes.now at end }
    requires room { Fits (noted_bytes view.now (notes_in notes.now at end) at) writer.old }
    ensures { Writes (noted_bytes view.now (notes_in notes.now at end) at) writer.old writer.new }
{
    for i in at..end {
        put_noted(view, i, notes[i], writer);
    }
}
