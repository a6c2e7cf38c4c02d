// The records of a data tree that have no children of their own to write: constants, names, CONV, TABLE; and a block's own.
ghost use Rattle.std.specs.Prelude.{◌≡◌, ◌+◌, ◌*◌, ◌≤◌, ◌<◌, length};
ghost use Rattle.word.specs.Refusal.{fine};
ghost use Rattle.word.specs.Writer.{Writes};
ghost use Rattle.view.specs.Record.{node_at};
ghost use Rattle.resolve.specs.Claims.{Narrow};
ghost use Rattle.tree.specs.Tree.{rec_of, encode, table_recs};
ghost use Rattle.tree.specs.Claims.{IsConst, const_tree, col_tree, class_tree, conv_bytes, block_op, block_rec};
ghost use Rattle.tree.specs.Levels.{numbers_in, opened_in, TabledIn, Fits};

use crate::kinds;
use word::{Record, Writer};

// The constant at a record of a view: its record again.
pub fn constant(view: &[u8], at: usize) -> Record
    requires at_in_bounds { 8 + 8 * at + 8 ≤ length view.now }
    requires constant { IsConst (node_at view.now at) }
    ensures { rec_of result ≡ encode (const_tree (node_at view.now at)) }
{
    word::record_at(view, at)
}

// COL, by what its name finds: DATA or LOCAL.
#[tactic(auto, unfolding(crate::specs::Claims::col_tree, crate::specs::Tree::encode, view::specs::Record::const_rec))]
pub fn column(h: scope::Found) -> Record
    ensures { rec_of result ≡ encode (col_tree h) }
{
    match h {
        scope::Found::Column {
            outward,
            table,
            column,
            ..
        } => Record {
            a: outward,
            b: table,
            c: column,
            ..kinds::DATA
        },
        scope::Found::Local { outward, .. } => Record {
            a: outward,
            ..kinds::LOCAL
        },
        _ => kinds::NULL,
    }
}

// CLASSOF, by what its name finds: CELLCLASS.
#[tactic(auto, unfolding(crate::specs::Claims::class_tree, crate::specs::Tree::encode, view::specs::Record::const_rec))]
pub fn cell_class(h: scope::Found) -> Record
    ensures { rec_of result ≡ encode (class_tree h) }
{
    match h {
        scope::Found::Column {
            outward,
            table,
            column,
            ..
        } => Record {
            a: outward,
            b: table,
            c: column,
            ..kinds::CELL_CLASS
        },
        _ => kinds::NULL,
    }
}

// CONV before a limb of type s under IF of type t, where they differ.
pub fn put_conv(s: cell::Type, t: cell::Type, writer: &mut Writer)
    requires narrow { Narrow t }
    requires room { Fits (conv_bytes s t) writer.old }
    ensures { Writes (conv_bytes s t) writer.old writer.new }
{
    if s == t {
        return;
    }
    let op = 16 * t.digits() + t.scale();
    writer.put(Record { op, ..kinds::CONV });
}

// The record of a block over so many tables, by what is asked of it.
#[tactic(auto, unfolding(crate::specs::Claims::block_kind, crate::specs::Claims::block_op, crate::specs::Tree::fold_kind, crate::specs::Tree::fold_op, crate::specs::Tree::pick_kind))]
pub fn block(asked: resolve::Asked, count: u16) -> Record
    requires { block_op asked < 256 }
    ensures { result ≡ block_rec asked count }
{
    match asked {
        resolve::Asked::Rows(view::Fold::Any) => Record {
            a: count,
            ..kinds::EXISTS
        },
        resolve::Asked::Rows(view::Fold::Count(p)) => Record {
            op: 16 * p,
            a: count,
            ..kinds::COUNT
        },
        resolve::Asked::Values(view::Pick::Only) => Record {
            a: count,
            ..kinds::VALUE
        },
        resolve::Asked::Values(view::Pick::Greatest) => Record {
            a: count,
            ..kinds::MAX
        },
        resolve::Asked::Values(view::Pick::Least) => Record {
            a: count,
            ..kinds::MIN
        },
    }
}

/// The entry of a block whose tables are all in the catalogue: those that so many TABLE records of the view name, from record `at` on.
pub fn block_scope(source: &resolve::Source, at: usize, count: usize) -> scope::Scope
    requires tabled { TabledIn source.now at count }
    requires some { 1 ≤ count }
    ensures { fine result ≡ opened_in source.now at count }
{
    let files = source.files;
    let Ok(s) = scope::open_block(
        source.cat,
        files.nc,
        source.starts,
        files.tables,
        source.view,
        at,
        count,
    ) else {
        return scope::local_scope(0, cell::Type::Null, class::Info::Fixed(0));
    };
    s
}

/// The TABLE records of a block, with its tables' numbers: of those that so many TABLE records of the view name, from record `at` on.
pub fn table_recs(source: &resolve::Source, at: usize, count: usize, writer: &mut Writer)
    requires tabled { TabledIn source.now at count }
    requires room { Fits (table_recs (numbers_in source.now at count)) writer.old }
    ensures { Writes (table_recs (numbers_in source.now at count)) writer.old writer.new }
{
    let files = source.files;
    for j in 0..count {
        let Some(k) = scope::table_number(
            source.cat,
            files.nc,
            source.starts,
            files.tables,
            source.view,
            at + j,
        ) else {
            return;
        };
        writer.put(Record {
            a: k as u16,
            ..kinds::TABLE
        });
    }
}
