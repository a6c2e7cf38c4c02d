// The class tree of an accepted value, and the whole tree of an accepted view, written in prefix order.
// The definitions are in specs/: Claims has the class at a record, Rows a block's row classes, Levels both over the level of a writer; crate tree has the trees.
#![tactic(auto)]

mod rows;
mod select;

ghost use Rattle.std.specs.Prelude.{◌≡◌, ◌++◌, ◌-◌, ◌≤◌};
ghost use Rattle.word.specs.Writer.{Writes};
ghost use Rattle.word.specs.Record.{rec_bytes};
ghost use Rattle.view.specs.Record.{node_at};
ghost use Rattle.view.specs.declared.Node.TheVariants.{If, Let};
ghost use Rattle.scope.specs.Entry.{count_in};
ghost use Rattle.resolve.specs.Claims.{block_node};
ghost use Rattle.tree.specs.Tree.{rec_of, encode};
ghost use Rattle.tree.specs.Trans.{as_tree, choice};
ghost use Rattle.tree.specs.Levels.{data_in, next_in, AcceptedIn, Fits};
ghost use Rattle.label.specs.Claims.{IsTree, IsBinop};
ghost use Rattle.label.specs.Found.{cell_tree, row_tree};
ghost use Rattle.label.specs.Levels.{class_in, where_in, kept_in, row_in, valued_in, RowedIn, ValuedIn};

pub use select::{measure, write_tree};
use tree::{Level, kinds, known_at};
use word::{Record, Writer};

// The number of a block's last table.
fn last_of(s: scope::Scope) -> usize
    requires { (1 ≤ count_in s) × (count_in s ≤ 4) }
    ensures { (result ≡ count_in s - 1) × (result ≤ 4) }
{
    scope::tables_in(s) - 1
}

// The class of what COL finds.
#[tactic(auto, unfolding(crate::specs::Found::cell_tree, tree::specs::Tree::encode, view::specs::Record::const_rec, cell::specs::Values::number_in))]
fn cell_record(h: scope::Found) -> Record
    ensures { rec_of result ≡ encode (cell_tree h) }
{
    match h {
        scope::Found::Column {
            outward,
            table,
            column,
            ..
        } => Record {
            a: outward,
            b: table,
            c: column,
            ..kinds::CELL_CLASS
        },
        scope::Found::Local { outward, .. } => Record {
            a: outward,
            ..kinds::LOCAL_CLASS
        },
        _ => kinds::CLASS,
    }
}

// The class of what CLASSOF finds: that of its row.
#[tactic(auto, unfolding(crate::specs::Found::row_tree, tree::specs::Tree::encode, view::specs::Record::const_rec, cell::specs::Values::number_in))]
fn row_record(h: scope::Found) -> Record
    ensures { rec_of result ≡ encode (row_tree h) }
{
    match h {
        scope::Found::Column { outward, table, .. } => Record {
            a: outward,
            b: table,
            ..kinds::ROW_CLASS
        },
        _ => kinds::CLASS,
    }
}

/// The class of the value at a record, as a tree: one record where it is fixed.
/// The pad is scratch for the walk of names and types; what it holds afterwards isn't said.
#[cycle(write_class)]
pub fn write_c(level: &Level, at: usize, writer: &mut Writer, pad: &mut [u64; 1024])
    requires accepted { AcceptedIn level.now at }
    requires room { Fits (encode (as_tree (class_in level.now at))) writer.old }
    ensures { Writes (encode (as_tree (class_in level.now at))) writer.old writer.new }
{
    match known_at(level, at, pad).info {
        class::Info::Fixed(k) => writer.put(Record {
            a: k,
            ..kinds::CLASS
        }),
        class::Info::Bound(_) => write_open(level, at, writer, pad),
    }
}

// A class that is a tree, by the value's kind.
#[cycle(write_class)]
fn write_open(level: &Level, at: usize, writer: &mut Writer, pad: &mut [u64; 1024])
    requires accepted { AcceptedIn level.now at }
    requires tree { IsTree (class_in level.now at) }
    requires room { Fits (encode (as_tree (class_in level.now at))) writer.old }
    ensures { Writes (encode (as_tree (class_in level.now at))) writer.old writer.new }
{
    let source = level.source;
    let held = level.scopes;
    let down = Level {
        depth: level.depth - 1,
        ..*level
    };
    match view::node_at(source.view, at) {
        view::Node::Binop(_) => write_binop(level, at, writer, pad),
        view::Node::Not => write_c(&down, at + 1, writer, pad),
        view::Node::If => write_if(level, at, writer, pad),
        view::Node::Exists(a, q) => {
            write_block(level, at, a, resolve::Asked::Rows(q), writer, pad)
        }
        view::Node::Single(a, g) => {
            write_block(level, at, a, resolve::Asked::Values(g), writer, pad)
        }
        view::Node::Col(name, q) => {
            let h = scope::find(held, source.cat, source.files.nc, level.deep, name, q);
            writer.put(cell_record(h))
        }
        view::Node::Classof(name, q) => {
            let h = scope::find(held, source.cat, source.files.nc, level.deep, name, q);
            writer.put(row_record(h))
        }
        view::Node::Let(name) => write_let(level, at, name, writer, pad),
        _ => {}
    }
}

// BINOP: LUB of both operands, in order, or the right one first where the left one is fixed.
#[cycle(write_class)]
fn write_binop(level: &Level, at: usize, writer: &mut Writer, pad: &mut [u64; 1024])
    requires accepted { AcceptedIn level.now at }
    requires tree { IsTree (class_in level.now at) }
    requires kind { IsBinop level.now.source.now.view.now at }
    requires room { Fits (encode (as_tree (class_in level.now at))) writer.old }
    ensures { Writes (encode (as_tree (class_in level.now at))) writer.old writer.new }
{
    let left = at + 1;
    let down = Level {
        depth: level.depth - 1,
        ..*level
    };
    let x = known_at(&down, left, pad);
    match x.info {
        class::Info::Fixed(_) => write_lub(&down, x.next, left, writer, pad),
        class::Info::Bound(_) => write_lub(&down, left, x.next, writer, pad),
    }
}

// LUB of the classes of two values.
// Stays: IF, a block's rows and its value write such a join by themselves, since their parts aren't both values; one function would take two closures in the cycle.
#[cycle(write_class)]
fn write_lub(level: &Level, first: usize, second: usize, writer: &mut Writer, pad: &mut [u64; 1024])
    requires accepted_first { AcceptedIn level.now first }
    requires accepted_second { AcceptedIn level.now second }
    requires room { Fits (rec_bytes 25 0 0 0 0 ++ (encode (as_tree (class_in level.now first)) ++ encode (as_tree (class_in level.now second)))) writer.old }
    ensures { Writes (rec_bytes 25 0 0 0 0 ++ (encode (as_tree (class_in level.now first)) ++ encode (as_tree (class_in level.now second)))) writer.old writer.new }
{
    writer.put(kinds::LUB);
    write_c(level, first, writer, pad);
    write_c(level, second, writer, pad);
}

// IF: LUB of the condition's class and the choice, the choice first where the condition's class is fixed.
#[cycle(write_class)]
fn write_if(level: &Level, at: usize, writer: &mut Writer, pad: &mut [u64; 1024])
    requires accepted { AcceptedIn level.now at }
    requires tree { IsTree (class_in level.now at) }
    requires kind { node_at level.now.source.now.view.now at ≡ If }
    requires room { Fits (encode (as_tree (class_in level.now at))) writer.old }
    ensures { Writes (encode (as_tree (class_in level.now at))) writer.old writer.new }
{
    let test = at + 1;
    let down = Level {
        depth: level.depth - 1,
        ..*level
    };
    let c = known_at(&down, test, pad);
    let x = known_at(&down, c.next, pad);
    writer.put(kinds::LUB);
    match c.info {
        class::Info::Fixed(_) => {
            write_choice(&down, test, c.next, x.next, writer, pad);
            write_c(&down, test, writer, pad);
        }
        class::Info::Bound(_) => {
            write_c(&down, test, writer, pad);
            write_choice(&down, test, c.next, x.next, writer, pad);
        }
    }
}

// The choice, under the value at `test`, of the classes of the values at `yes` and `no`.
#[cycle(write_class)]
fn write_choice(
    level: &Level,
    test: usize,
    yes: usize,
    no: usize,
    writer: &mut Writer,
    pad: &mut [u64; 1024],
)
    requires accepted_test { AcceptedIn level.now test }
    requires accepted_yes { AcceptedIn level.now yes }
    requires accepted_no { AcceptedIn level.now no }
    requires room { Fits (encode (as_tree (choice (data_in level.now test) (class_in level.now yes) (class_in level.now no)))) writer.old }
    ensures { Writes (encode (as_tree (choice (data_in level.now test) (class_in level.now yes) (class_in level.now no)))) writer.old writer.new }
{
    let a = known_at(level, yes, pad);
    let b = known_at(level, no, pad);
    match a.info.choose(b.info) {
        class::Info::Fixed(k) => writer.put(Record {
            a: k,
            ..kinds::CLASS
        }),
        class::Info::Bound(_) => {
            writer.put(kinds::IF);
            tree::write_d(level, test, writer, pad);
            write_c(level, yes, writer, pad);
            write_c(level, no, writer, pad);
        }
    }
}

// LET: BIND of the value's data and the body's class, or BINDC with the value's class where that is a tree.
#[cycle(write_class)]
fn write_let(level: &Level, at: usize, name: u16, writer: &mut Writer, pad: &mut [u64; 1024])
    requires accepted { AcceptedIn level.now at }
    requires tree { IsTree (class_in level.now at) }
    requires kind { node_at level.now.source.now.view.now at ≡ Let name }
    requires room { Fits (encode (as_tree (class_in level.now at))) writer.old }
    ensures { Writes (encode (as_tree (class_in level.now at))) writer.old writer.new }
{
    let own = at + 1;
    let down = Level {
        depth: level.depth - 1,
        ..*level
    };
    let x = known_at(&down, own, pad);
    let s = scope::local_scope(name, x.ty, x.info);
    let scopes = scope::pushed(*level.scopes, level.deep, s);
    let inner = Level {
        scopes: &scopes,
        deep: level.deep + 1,
        ..down
    };
    match x.info {
        class::Info::Fixed(_) => {
            writer.put(kinds::BIND);
            tree::write_d(&down, own, writer, pad);
            write_c(&inner, x.next, writer, pad);
        }
        class::Info::Bound(_) => {
            writer.put(kinds::BIND_CLASS);
            write_c(&down, own, writer, pad);
            tree::write_d(&down, own, writer, pad);
            write_c(&inner, x.next, writer, pad);
        }
    }
}

// A block of whose rows or values something is asked: LUB of AGG over what is read at a row, and the tables' class.
#[cycle(write_class)]
fn write_block(
    level: &Level,
    at: usize,
    count: u16,
    asked: resolve::Asked,
    writer: &mut Writer,
    pad: &mut [u64; 1024],
)
    requires accepted { AcceptedIn level.now at }
    requires block { node_at level.now.source.now.view.now at ≡ block_node asked count }
    requires room { Fits (encode (as_tree (class_in level.now at))) writer.old }
    ensures { Writes (encode (as_tree (class_in level.now at))) writer.old writer.new }
{
    let first = at + 1;
    let tables = count as usize;
    let source = level.source;
    let s = tree::block_scope(source, first, tables);
    let scopes = scope::pushed(*level.scopes, level.deep, s);
    let inner = Level {
        scopes: &scopes,
        deep: level.deep + 1,
        depth: level.depth - 1,
        ..*level
    };
    let k = scope::block_class(s, source.cat, source.files.nc);
    let test = first + tables;
    writer.put(kinds::LUB);
    writer.put(Record {
        a: count,
        ..kinds::AGG
    });
    tree::table_recs(source, first, tables, writer);
    write_at_row(&inner, test, s, asked, writer, pad);
    writer.put(Record {
        a: k,
        ..kinds::CLASS
    });
}

// What is read at one row of the block of entry s, whose where stands at a record.
#[cycle(write_class)]
fn write_at_row(
    level: &Level,
    at: usize,
    s: scope::Scope,
    asked: resolve::Asked,
    writer: &mut Writer,
    pad: &mut [u64; 1024],
)
    requires accepted { AcceptedIn level.now at }
    requires rowed { RowedIn level.now s }
    requires valued { ValuedIn level.now at asked }
    requires room { Fits (encode (as_tree (row_in level.now at s asked))) writer.old }
    ensures { Writes (encode (as_tree (row_in level.now at s asked))) writer.old writer.new }
{
    match asked {
        resolve::Asked::Rows(_) => write_where(level, at, s, writer, pad),
        resolve::Asked::Values(_) => write_valued(level, at, s, writer, pad),
    }
}

// The row classes and the where, and the choice of the value's class and 0, joined.
#[cycle(write_class)]
fn write_valued(
    level: &Level,
    at: usize,
    s: scope::Scope,
    writer: &mut Writer,
    pad: &mut [u64; 1024],
)
    requires accepted { AcceptedIn level.now at }
    requires rowed { RowedIn level.now s }
    requires value { AcceptedIn level.now (next_in level.now at) }
    requires room { Fits (encode (as_tree (valued_in level.now at s))) writer.old }
    ensures { Writes (encode (as_tree (valued_in level.now at s))) writer.old writer.new }
{
    let source = level.source;
    let x = known_at(level, at, pad);
    let y = known_at(level, x.next, pad);
    let rows = rows::info(s, source.cat, source.files.nc, last_of(s));
    let i = rows.join(x.info);
    let h = i.join(y.info.choose(class::Info::Fixed(0)));
    match h {
        class::Info::Fixed(k) => writer.put(Record {
            a: k,
            ..kinds::CLASS
        }),
        class::Info::Bound(_) => {
            writer.put(kinds::LUB);
            match i {
                class::Info::Fixed(_) => {
                    write_kept(level, at, x.next, writer, pad);
                    write_where(level, at, s, writer, pad);
                }
                class::Info::Bound(_) => {
                    write_where(level, at, s, writer, pad);
                    write_kept(level, at, x.next, writer, pad);
                }
            }
        }
    }
}

// The row classes and the where's class, joined.
#[cycle(write_class)]
fn write_where(
    level: &Level,
    at: usize,
    s: scope::Scope,
    writer: &mut Writer,
    pad: &mut [u64; 1024],
)
    requires accepted { AcceptedIn level.now at }
    requires rowed { RowedIn level.now s }
    requires room { Fits (encode (as_tree (where_in level.now at s))) writer.old }
    ensures { Writes (encode (as_tree (where_in level.now at s))) writer.old writer.new }
{
    let source = level.source;
    let x = known_at(level, at, pad);
    let last = last_of(s);
    let i = rows::info(s, source.cat, source.files.nc, last);
    let h = i.join(x.info);
    match h {
        class::Info::Fixed(k) => writer.put(Record {
            a: k,
            ..kinds::CLASS
        }),
        class::Info::Bound(_) => {
            writer.put(kinds::LUB);
            match i {
                class::Info::Fixed(_) => {
                    write_c(level, at, writer, pad);
                    rows::write(s, source.cat, source.files.nc, last, writer);
                }
                class::Info::Bound(_) => {
                    rows::write(s, source.cat, source.files.nc, last, writer);
                    write_c(level, at, writer, pad);
                }
            }
        }
    }
}

// The choice, under the where at `test`, of the class of the value at a record and 0.
#[cycle(write_class)]
fn write_kept(level: &Level, test: usize, value: usize, writer: &mut Writer, pad: &mut [u64; 1024])
    requires accepted_test { AcceptedIn level.now test }
    requires accepted_value { AcceptedIn level.now value }
    requires room { Fits (encode (as_tree (kept_in level.now test value))) writer.old }
    ensures { Writes (encode (as_tree (kept_in level.now test value))) writer.old writer.new }
{
    let a = known_at(level, value, pad);
    match a.info.choose(class::Info::Fixed(0)) {
        class::Info::Fixed(k) => writer.put(Record {
            a: k,
            ..kinds::CLASS
        }),
        class::Info::Bound(_) => {
            writer.put(kinds::IF);
            tree::write_d(level, test, writer, pad);
            write_c(level, value, writer, pad);
            writer.put(kinds::CLASS);
        }
    }
}
