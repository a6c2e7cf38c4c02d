//! The open scopes in a small table, one entry for each block and each LET body: push an entry, and find a name.
//! The definitions are in specs/: Scopes has the rule of names, Entry an entry, Table what the entries of a table say, Blocks a block's tables.
#![tactic(auto)]

mod entry;
mod names;

ghost use Rattle.std.specs.Prelude.{◌≡◌, ◌+◌, ◌*◌, ◌≤◌, ◌<◌, length, set};
ghost use Rattle.scope.specs.Scopes.{find};
ghost use Rattle.scope.specs.Table.{scopes_of, infos_of, found_of};

pub use entry::{
    block_class, count_in, local_scope, open_block, row_info, table_class_at, table_number,
    tables_in,
};
use names::Lookup;

/// A block's tables, by the numbers of their records in the catalogue: the first `count` of four, and zeros after them.
#[derive(Clone, Copy, PartialEq, Eq, Debug)]
pub struct Block {
    pub tables: [u16; 4],
    pub count: u8,
}

/// A LET's local: its name, its type, and what is known of its class.
#[derive(Clone, Copy, PartialEq, Eq, Debug)]
pub struct Local {
    pub name: u16,
    pub ty: cell::Type,
    pub info: class::Info,
}

/// An open scope: a block's, or that of a LET body.
#[derive(Clone, Copy, PartialEq, Eq, Debug)]
pub enum Scope {
    Block(Block),
    Local(Local),
}

/// What a name finds. A column: how many scopes outward, which table of the block, which column of the table, its type,
/// what is known of the class of its cells, and of that of its table's rows. A local: how many scopes outward, its type, what is known of its class.
#[derive(Clone, Copy, PartialEq, Eq, Debug)]
pub enum Found {
    Column {
        outward: u16,
        table: u16,
        column: u16,
        ty: cell::Type,
        cell: class::Info,
        row: class::Info,
    },
    Local {
        outward: u16,
        ty: cell::Type,
        info: class::Info,
    },
    None,
    Ambiguous,
}

/// One more scope open: its entry stands at place depth.
pub fn push(scopes: &mut [Scope], depth: usize, scope: Scope)
    requires { depth < length scopes.old }
    ensures { scopes.new ≡ set scopes.old depth scope }
{
    scopes[depth] = scope;
}

/// The table with one more scope open; the one that was given is as it was.
pub fn pushed(t: [Scope; 16], depth: usize, scope: Scope) -> [Scope; 16]
    requires { depth < 16 }
    ensures { result ≡ set t depth scope }
{
    let mut u = t;
    push(&mut u, depth, scope);
    u
}

/// The one match in the nearest of the first depth scopes that has any, from the innermost outward; a name is bare where its qualifier is 0.
pub fn find(
    scopes: &[Scope],
    cat: &[u8],
    n: usize,
    depth: usize,
    name: u16,
    qualifier: u16,
) -> Found
    requires n_in_bounds { (8 + 8 * n ≤ length cat.now) × (n ≤ 2080) }
    requires depth_bound { (depth ≤ length scopes.now) × (depth ≤ 16) }
    ensures { result ≡ found_of (infos_of scopes.now depth) (find name qualifier 0 (scopes_of cat.now n scopes.now depth)) }
{
    let lookup = Lookup {
        cat,
        n,
        name,
        qualifier,
    };
    // Stays: over `scopes[..depth].iter().rev().enumerate()` it proves as well, and a look-up took 34 ns with it, 26 with this loop.
    for outward in 0..depth {
        match lookup.in_scope(&scopes[depth - outward - 1], outward as u16) {
            Found::None => {}
            found => return found,
        }
    }
    Found::None
}
