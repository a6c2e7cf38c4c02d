// The data tree of an accepted view's values, written in prefix order: a record, then its children.
// The definitions are in specs/: Tree has trees and their records, Trans the data tree D and the class C, Select the whole tree, Claims the value at a record,
// Levels what the writers say of it.
#![tactic(auto)]

pub mod kinds;
mod known;
mod noted;
mod records;

ghost use Rattle.std.specs.Prelude.{◌≡◌};
ghost use Rattle.word.specs.Writer.{Writes};
ghost use Rattle.view.specs.Record.{node_at};
ghost use Rattle.resolve.specs.Claims.{Narrow, block_node};
ghost use Rattle.tree.specs.Tree.{encode};
ghost use Rattle.tree.specs.Levels.{data_in, limb_in, AcceptedIn, ToldIn, Fits};

pub use known::known_at;
pub use noted::write_noted;
pub use records::{block_scope, table_recs};
use word::{Record, Writer};

/// What the writer of a value reads: the catalogue and the view, the scopes that are open, so many of them, and the depth that is left.
#[derive(Clone, Copy)]
pub struct Level<'a> {
    pub source: &'a resolve::Source<'a>,
    pub scopes: &'a [scope::Scope; 16],
    pub deep: usize,
    pub depth: usize,
}

/// What is known of a value: its type, what is known of its class, and the record after it.
#[derive(Clone, Copy, PartialEq, Eq, Debug)]
pub struct Part {
    pub ty: cell::Type,
    pub info: class::Info,
    pub next: usize,
}

/// The data tree of the value at a record.
/// The pad is scratch for the walk of names and types; what it holds afterwards isn't said.
#[cycle(write_block_write_d_write_limb)]
pub fn write_d(level: &Level, at: usize, writer: &mut Writer, pad: &mut [u64; 1024]) -> Part
    requires accepted { AcceptedIn level.now at }
    requires room { Fits (encode (data_in level.now at)) writer.old }
    ensures told { ToldIn level.now at result }
    ensures wrote { Writes (encode (data_in level.now at)) writer.old writer.new }
{
    let source = level.source;
    let held = level.scopes;
    let next = at + 1;
    let down = Level {
        depth: level.depth - 1,
        ..*level
    };
    match view::sound_at(source.view, at) {
        view::Node::Const(ty, _) => {
            writer.put(records::constant(source.view, at));
            Part {
                ty,
                info: class::Info::Fixed(source.files.k),
                next,
            }
        }
        view::Node::Binop(op) => {
            // Stays: this record is put last, since its digits are known only once the operands' types are, and to know them first the operands would be walked twice.
            let place = writer.at;
            writer.at += 8;
            let x = write_d(&down, next, writer, pad);
            let y = write_d(&down, x.next, writer, pad);
            let ty = cell::Type::binop(op, x.ty, y.ty).unwrap_or(cell::Type::Null);
            let digits = u16::from(ty.digits());
            word::put_record(
                writer.out,
                place,
                Record {
                    op,
                    a: digits,
                    ..kinds::BINOP
                },
            );
            Part {
                ty,
                info: x.info.join(y.info),
                ..y
            }
        }
        view::Node::Not => {
            writer.put(kinds::NOT);
            write_d(&down, next, writer, pad)
        }
        view::Node::If => {
            let ty = known_at(level, at, pad).ty;
            writer.put(kinds::IF);
            let x = write_d(&down, next, writer, pad);
            let y = write_limb(&down, x.next, ty, writer, pad);
            let z = write_limb(&down, y.next, ty, writer, pad);
            Part {
                ty,
                info: x.info.join(y.info.choose(z.info)),
                ..z
            }
        }
        view::Node::Exists(a, q) => {
            write_block(level, at, a, resolve::Asked::Rows(q), writer, pad)
        }
        view::Node::Single(a, g) => {
            write_block(level, at, a, resolve::Asked::Values(g), writer, pad)
        }
        view::Node::Col(name, q) => {
            let h = scope::find(held, source.cat, source.files.nc, level.deep, name, q);
            writer.put(records::column(h));
            Part {
                ty: known::found_type(h),
                info: known::found_info(h),
                next,
            }
        }
        view::Node::Classof(name, q) => {
            let h = scope::find(held, source.cat, source.files.nc, level.deep, name, q);
            writer.put(records::cell_class(h));
            Part {
                ty: cell::Type::Class,
                info: known::row_info(h),
                next,
            }
        }
        view::Node::Let(name) => {
            writer.put(kinds::BIND);
            let x = write_d(&down, next, writer, pad);
            let s = scope::local_scope(name, x.ty, x.info);
            let scopes = scope::pushed(*level.scopes, level.deep, s);
            let inner = Level {
                scopes: &scopes,
                deep: level.deep + 1,
                ..down
            };
            write_d(&inner, x.next, writer, pad)
        }
        _ => Part {
            ty: cell::Type::Null,
            info: class::Info::Fixed(0),
            next,
        },
    }
}

// A limb under IF of type ty: CONV before it where it has another type.
#[cycle(write_block_write_d_write_limb)]
fn write_limb(
    level: &Level,
    at: usize,
    ty: cell::Type,
    writer: &mut Writer,
    pad: &mut [u64; 1024],
) -> Part
    requires accepted { AcceptedIn level.now at }
    requires narrow { Narrow ty }
    requires room { Fits (encode (limb_in level.now at ty)) writer.old }
    ensures told { ToldIn level.now at result }
    ensures wrote { Writes (encode (limb_in level.now at ty)) writer.old writer.new }
{
    let own = known_at(level, at, pad).ty;
    records::put_conv(own, ty, writer);
    write_d(level, at, writer, pad)
}

// A block over so many tables of whose rows or values something is asked: the tables' numbers, then the where and the value in the block's scope.
#[cycle(write_block_write_d_write_limb)]
fn write_block(
    level: &Level,
    at: usize,
    count: u16,
    asked: resolve::Asked,
    writer: &mut Writer,
    pad: &mut [u64; 1024],
) -> Part
    requires accepted { AcceptedIn level.now at }
    requires block { node_at level.now.source.now.view.now at ≡ block_node asked count }
    requires room { Fits (encode (data_in level.now at)) writer.old }
    ensures told { ToldIn level.now at result }
    ensures wrote { Writes (encode (data_in level.now at)) writer.old writer.new }
{
    let first = at + 1;
    let tables = count as usize;
    let source = level.source;
    let s = block_scope(source, first, tables);
    let scopes = scope::pushed(*level.scopes, level.deep, s);
    let inner = Level {
        scopes: &scopes,
        deep: level.deep + 1,
        depth: level.depth - 1,
        ..*level
    };
    writer.put(records::block(asked, count));
    table_recs(source, first, tables, writer);
    let x = write_d(&inner, first + tables, writer, pad);
    match asked {
        resolve::Asked::Rows(q) => Part {
            ty: resolve::fold_type(q),
            info: resolve::exists_info(s, source.cat, source.files.nc, x.info),
            ..x
        },
        resolve::Asked::Values(_) => {
            let y = write_d(&inner, x.next, writer, pad);
            Part {
                info: resolve::single_info(s, source.cat, source.files.nc, x.info, y.info),
                ..y
            }
        }
    }
}
