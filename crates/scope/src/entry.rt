// Entries of the table of open scopes: a local's, and a block's, whose tables are looked up by their names.
// The definitions are in specs/: Entry says what an entry is, Blocks a block's tables.
ghost use Rattle.std.specs.Prelude.{◌≡◌, ◌+◌, ◌*◌, ◌≤◌, ◌<◌, length, min, get_or, None, IfSome};
ghost use Rattle.catalogue.specs.Tables.{tables_from, table_named};
ghost use Rattle.catalogue.specs.Starts.{StartsAre, ref_of};
ghost use Rattle.view.specs.Record.{node_at};
ghost use Rattle.view.specs.Parse.{name_of, names_at};
ghost use Rattle.scope.specs.Blocks.{tables_named};
ghost use Rattle.scope.specs.Entry.{count_in, table_in, local_scope, opened_by, tables_in, rows_of, classes_of, Among};
ghost use Rattle.scope.specs.Table.{open_of};
ghost use Rattle.class.specs.Class.{lub_all};
ghost use Rattle.class.specs.declared.Info.TheVariants.{Fixed};

use crate::{Block, Local, Scope};

/// A local: its name, its type, what is known of its class.
#[tactic(auto, unfolding(crate::specs::Entry::local_scope))]
pub fn local_scope(name: u16, ty: cell::Type, info: class::Info) -> Scope
    ensures { result ≡ local_scope name ty info }
{
    Scope::Local(Local { name, ty, info })
}

/// How many tables an entry says that it has, below 16; a local has none.
#[tactic(auto, unfolding(crate::specs::Entry::count_in))]
pub fn count_in(scope: Scope) -> u16
    ensures { (result ≡ count_in scope) × (result < 16) }
{
    match scope {
        Scope::Block(block) => u16::from(block.count.min(15)),
        Scope::Local(_) => 0,
    }
}

/// How many tables an entry has, at most four; a local has none.
pub fn tables_in(scope: Scope) -> usize
    ensures { (result ≡ min (count_in scope) 4) × (result ≤ 4) }
{
    usize::from(count_in(scope).min(4))
}

// The record of a table of an entry, by its number, if the entry has so many.
#[tactic(auto, unfolding(crate::specs::Entry::count_in, crate::specs::Entry::table_in))]
fn table_in(scope: Scope, number: usize) -> Option<usize>
    ensures some { IfSome result (λ table. (number < min (count_in scope) 4) × (table ≡ table_in scope number)) }
    ensures none { result ≡ None → min (count_in scope) 4 ≤ number }
{
    match scope {
        Scope::Block(block) if number < usize::from(block.count.min(4)) => {
            Some(usize::from(block.tables[number]))
        }
        _ => None,
    }
}

// The name of a TABLE; 0 for any other node.
// Stays: the definition of a TABLE's name, view/specs/Parse `name_of`, has 0 for a node that is none.
#[tactic(auto, unfolding(view::specs::Parse::name_of))]
fn name_of(node: view::Node) -> u16
    ensures { result ≡ name_of node }
{
    let view::Node::Table(name) = node else {
        return 0;
    };
    name
}

/// The number among a catalogue's tables of the one that TABLE record `at` names, if there is one.
pub fn table_number(
    cat: &[u8],
    n: usize,
    starts: &[u16; 32],
    tables: usize,
    view: &[u8],
    at: usize,
) -> Option<usize>
    requires n_in_bounds { 8 + 8 * n ≤ length cat.now }
    requires starts_are { StartsAre cat.now n tables starts.now }
    requires p_in_bounds { 8 + 8 * at + 8 ≤ length view.now }
    ensures found { table_named (name_of (node_at view.now at)) (tables_from cat.now n n 0) ≡ ref_of cat.now n starts.now result }
    ensures few { IfSome result (λ j. j < tables) }
{
    catalogue::find_table(cat, n, starts, tables, name_of(view::node_at(view, at)))
}

// Stays: seven parameters are no plainer in a struct here, since crate catalogue's look-ups take `cat, n, starts, tables` one by one and each caller's struct of them holds more.
/// The entry of a block whose TABLE records stand from record `at` on; or the number of the first of them whose table isn't in the catalogue.
#[tactic(auto, using(crate::proofs::Opening::open_none))]
pub fn open_block(
    cat: &[u8],
    n: usize,
    starts: &[u16; 32],
    tables: usize,
    view: &[u8],
    at: usize,
    count: usize,
) -> Result<Scope, usize>
    requires n_in_bounds { 8 + 8 * n ≤ length cat.now }
    requires starts_are { StartsAre cat.now n tables starts.now }
    requires count_in_bounds { 8 + 8 * (at + count) ≤ length view.now }
    requires count_bound { count ≤ 4 }
    ensures { result ≡ opened_by starts.now (tables_named (tables_from cat.now n n 0) (names_at view.now at count)) }
{
    // The entry of a block of no tables is that of a local named 0, of type null: an entry of tables has at least one.
    if count == 0 {
        return Ok(local_scope(0, cell::Type::Null, class::Info::Fixed(0)));
    }
    let mut places = [0u16; 4];
    for j in 0..count {
        let Some(number) = table_number(cat, n, starts, tables, view, at + j) else {
            return Err(at + j);
        };
        places[j] = starts[number];
    }
    Ok(Scope::Block(Block {
        tables: places,
        count: count as u8,
    }))
}

/// What is known of the class of the rows of a block's table, by its number; past the last, `Fixed(0)`.
pub fn row_info(scope: Scope, cat: &[u8], n: usize, number: usize) -> class::Info
    requires n_in_bounds { 8 + 8 * n ≤ length cat.now }
    requires among { Among n scope }
    ensures { result ≡ get_or (rows_of (tables_in (open_of cat.now n scope))) number (Fixed 0) }
{
    match table_in(scope, number) {
        Some(table) => catalogue::info_at(cat, table),
        None => class::Info::Fixed(0),
    }
}

/// The class of a block's table, by its number; past the last, 0.
pub fn table_class_at(scope: Scope, cat: &[u8], n: usize, number: usize) -> u16
    requires n_in_bounds { 8 + 8 * n ≤ length cat.now }
    requires among { Among n scope }
    ensures { result ≡ get_or (classes_of (tables_in (open_of cat.now n scope))) number 0 }
{
    match table_in(scope, number) {
        Some(table) => word::record_at(cat, table).c,
        None => 0,
    }
}

/// The lub of the classes of a block's tables.
pub fn block_class(scope: Scope, cat: &[u8], n: usize) -> u16
    requires n_in_bounds { 8 + 8 * n ≤ length cat.now }
    requires among { Among n scope }
    ensures { result ≡ lub_all (classes_of (tables_in (open_of cat.now n scope))) }
{
    let mut class = 0;
    for number in (0..tables_in(scope)).rev() {
        class = class::lub(table_class_at(scope, cat, n, number), class);
    }
    class
}
