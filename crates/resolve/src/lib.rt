// Names resolved and types found, in one walk over the records of an accepted view (6 to 9).
// The definitions are in specs/: Resolve has the rules, Infos and Sizes what is known of a class and of the trees, Typed the walk's answer, Notes what it notes.
#![tactic(auto)]

mod blocks;
mod notes;
mod select;
mod steps;
mod totals;

ghost use Rattle.std.specs.Prelude.{◌≡◌, ◌+◌, set};
ghost use Rattle.word.specs.Refusal.{said};
ghost use Rattle.view.specs.Record.{node_at};
ghost use Rattle.view.specs.declared.Node.TheVariants as node;
ghost use Rattle.resolve.specs.Notes.{NotedBy};
ghost use Rattle.resolve.specs.Claims.{ReadyIn, tables_in, scopes_in, value_in, answer_in, block_node};

pub use blocks::{exists_info, single_info};
pub use select::whole;
pub use totals::fold_type;
use word::{Reason, Refusal};

/// The numbers of what a walk is over: the catalogue's records and tables, the view's records, and the class of the view's constants.
#[derive(Clone, Copy, PartialEq, Eq, Debug)]
pub struct Files {
    pub nc: usize,
    pub tables: usize,
    pub n: usize,
    pub k: u16,
}

/// What a walk reads: a catalogue, the record of each of its tables, a view, and their numbers.
#[derive(Clone, Copy)]
pub struct Source<'a> {
    pub cat: &'a [u8],
    pub starts: &'a [u16; 32],
    pub view: &'a [u8],
    pub files: Files,
}

/// A value's type, what is known of its class, the next record, and how many records its data and its class take.
/// The numbers fit 16 bits: a view has at most 1,024 records, and sizes stop just above 8,190.
#[derive(Clone, Copy, PartialEq, Eq, Debug)]
pub struct Known {
    pub ty: cell::Type,
    pub info: class::Info,
    pub next: u16,
    pub values: u16,
    pub classes: u16,
}

/// What is asked of a block: something of its kept rows (EXISTS, COUNT), or one of their values (VALUE, MAX, MIN).
#[derive(Clone, Copy, PartialEq, Eq, Debug)]
pub enum Asked {
    Rows(view::Fold),
    Values(view::Pick),
}

/// What is known of a class, and how many records its tree takes.
#[derive(Clone, Copy, PartialEq, Eq, Debug)]
pub struct Weighed {
    pub info: class::Info,
    pub size: u16,
}

/// Of a view: what is known of its where's class, the records of the where's data and of its class, and those of all its values' pairs of data and class.
#[derive(Clone, Copy, PartialEq, Eq, Debug)]
pub struct Sums {
    pub info: class::Info,
    pub values: usize,
    pub classes: usize,
    pub pairs: usize,
}

/// A value: names and types, with depth levels left, in the scopes that are open, whose entries `held` has; and a note for each of its records.
#[inline(always)]
#[cycle(bind_binop_block_branch_not_value_within)]
pub fn value(
    source: &Source,
    at: usize,
    depth: usize,
    held: &mut [scope::Scope; 16],
    deep: usize,
    notes: &mut [u64; 1024],
) -> Result<Known, Refusal>
    requires { ReadyIn source.now held.old deep depth at }
    ensures value { said result ≡ answer_in source.now held.old deep depth at }
    ensures noted_by { NotedBy (tables_in source.now) (scopes_in source.now held.old deep) (value_in source.now depth at) at notes.old notes.new }
    ensures held_unchanged { held.new ≡ held.old }
{
    match view::sound_at(source.view, at) {
        view::Node::Const(ty, _) => {
            notes::note(notes, at, 0);
            let next = at + 1;
            let info = class::Info::Fixed(source.files.k);
            Ok(Known::leaf(ty, info, next as u16))
        }
        view::Node::Col(name, table) => {
            let found = scope::find(held, source.cat, source.files.nc, deep, name, table);
            notes::note(notes, at, notes::found_note(found));
            steps::column(at as u16, found)
        }
        view::Node::Classof(name, table) => {
            let found = scope::find(held, source.cat, source.files.nc, deep, name, table);
            notes::note(notes, at, notes::found_note(found));
            steps::class_of(at as u16, found)
        }
        view::Node::Binop(op) => binop(source, at, depth, held, deep, op, notes),
        view::Node::Not => not(source, at, depth, held, deep, notes),
        view::Node::If => branch(source, at, depth, held, deep, notes),
        view::Node::Let(name) => bind(source, at, depth, held, deep, name, notes),
        view::Node::Exists(count, fold) => {
            let count = usize::from(count);
            block(
                source,
                at,
                depth,
                held,
                deep,
                count,
                Asked::Rows(fold),
                notes,
            )
        }
        view::Node::Single(count, pick) => {
            let count = usize::from(count);
            block(
                source,
                at,
                depth,
                held,
                deep,
                count,
                Asked::Values(pick),
                notes,
            )
        }
        view::Node::Table(_) | view::Node::Select(_, _) => Err(Refusal {
            reason: Reason::WrongPlace,
            place: at as u16,
        }),
        view::Node::Bad => Err(Refusal {
            reason: Reason::FieldOutOfRule,
            place: at as u16,
        }),
    }
}

// BINOP, NOT, IF and LET have functions of their own, and `value`, which chooses among them, is inlined where a part is read: a part's answer is then copied once, which is faster.

/// BINOP: its left operand, then its right one, and its note after theirs.
#[inline(never)]
#[cycle(bind_binop_block_branch_not_value_within)]
fn binop(
    source: &Source,
    at: usize,
    depth: usize,
    held: &mut [scope::Scope; 16],
    deep: usize,
    op: u8,
    notes: &mut [u64; 1024],
) -> Result<Known, Refusal>
    requires ready { ReadyIn source.now held.old deep depth at }
    requires node { node_at source.now.view.now at ≡ node.Binop op }
    ensures value { said result ≡ answer_in source.now held.old deep depth at }
    ensures noted_by { NotedBy (tables_in source.now) (scopes_in source.now held.old deep) (value_in source.now depth at) at notes.old notes.new }
    ensures held_unchanged { held.new ≡ held.old }
{
    let down = depth - 1;
    let left = value(source, at + 1, down, held, deep, notes)?;
    let right = value(source, usize::from(left.next), down, held, deep, notes)?;
    let known = left.binop(at as u16, op, right)?;
    notes::note(notes, at, u64::from(known.ty.digits()));
    Ok(known)
}

/// NOT: its note, and its operand.
#[inline(never)]
#[cycle(bind_binop_block_branch_not_value_within)]
fn not(
    source: &Source,
    at: usize,
    depth: usize,
    held: &mut [scope::Scope; 16],
    deep: usize,
    notes: &mut [u64; 1024],
) -> Result<Known, Refusal>
    requires ready { ReadyIn source.now held.old deep depth at }
    requires node { node_at source.now.view.now at ≡ node.Not }
    ensures value { said result ≡ answer_in source.now held.old deep depth at }
    ensures noted_by { NotedBy (tables_in source.now) (scopes_in source.now held.old deep) (value_in source.now depth at) at notes.old notes.new }
    ensures held_unchanged { held.new ≡ held.old }
{
    notes::note(notes, at, 0);
    let operand = value(source, at + 1, depth - 1, held, deep, notes)?;
    operand.not(at as u16)
}

/// IF: its condition, then its limbs, whose notes say what each of them is brought to.
#[inline(never)]
#[cycle(bind_binop_block_branch_not_value_within)]
fn branch(
    source: &Source,
    at: usize,
    depth: usize,
    held: &mut [scope::Scope; 16],
    deep: usize,
    notes: &mut [u64; 1024],
) -> Result<Known, Refusal>
    requires ready { ReadyIn source.now held.old deep depth at }
    requires node { node_at source.now.view.now at ≡ node.If }
    ensures value { said result ≡ answer_in source.now held.old deep depth at }
    ensures noted_by { NotedBy (tables_in source.now) (scopes_in source.now held.old deep) (value_in source.now depth at) at notes.old notes.new }
    ensures held_unchanged { held.new ≡ held.old }
{
    notes::note(notes, at, 0);
    let down = depth - 1;
    let test = value(source, at + 1, down, held, deep, notes)?;
    let yes = value(source, usize::from(test.next), down, held, deep, notes)?;
    let no = value(source, usize::from(yes.next), down, held, deep, notes)?;
    let known = test.branch(at as u16, yes, no)?;
    notes::mark(notes, usize::from(test.next), yes.ty, known.ty);
    notes::mark(notes, usize::from(yes.next), no.ty, known.ty);
    Ok(known)
}

/// LET: its value, then its body, under one more scope: the local's.
#[inline(never)]
#[cycle(bind_binop_block_branch_not_value_within)]
fn bind(
    source: &Source,
    at: usize,
    depth: usize,
    held: &mut [scope::Scope; 16],
    deep: usize,
    name: u16,
    notes: &mut [u64; 1024],
) -> Result<Known, Refusal>
    requires ready { ReadyIn source.now held.old deep depth at }
    requires node { node_at source.now.view.now at ≡ node.Let name }
    ensures value { said result ≡ answer_in source.now held.old deep depth at }
    ensures noted_by { NotedBy (tables_in source.now) (scopes_in source.now held.old deep) (value_in source.now depth at) at notes.old notes.new }
    ensures held_unchanged { held.new ≡ held.old }
{
    let down = depth - 1;
    let bound = value(source, at + 1, down, held, deep, notes)?;
    notes::note(notes, at, 0);
    let own = scope::local_scope(name, bound.ty, bound.info);
    let start = usize::from(bound.next);
    let body = within(source, start, down, held, deep, own, notes)?;
    Ok(bound.bind(body))
}

/// A value under one more scope, which is closed again whatever the answer.
#[cycle(bind_binop_block_branch_not_value_within)]
fn within(
    source: &Source,
    at: usize,
    depth: usize,
    held: &mut [scope::Scope; 16],
    deep: usize,
    own: scope::Scope,
    notes: &mut [u64; 1024],
) -> Result<Known, Refusal>
    requires { ReadyIn source.now (set held.old deep own) (deep + 1) depth at }
    ensures value { said result ≡ answer_in source.now (set held.old deep own) (deep + 1) depth at }
    ensures noted_by { NotedBy (tables_in source.now) (scopes_in source.now (set held.old deep own) (deep + 1)) (value_in source.now depth at) at notes.old notes.new }
    ensures held_unchanged { held.new ≡ held.old }
{
    let outer = held[deep];
    scope::push(held, deep, own);
    let answer = value(source, at, depth, held, deep + 1, notes);
    held[deep] = outer;
    answer
}

/// A block of whose rows or values something is asked: its tables are one scope, under which its where and its value stand.
#[inline(never)]
#[cycle(bind_binop_block_branch_not_value_within)]
fn block(
    source: &Source,
    at: usize,
    depth: usize,
    held: &mut [scope::Scope; 16],
    deep: usize,
    count: usize,
    asked: Asked,
    notes: &mut [u64; 1024],
) -> Result<Known, Refusal>
    requires ready { ReadyIn source.now held.old deep depth at }
    requires node { node_at source.now.view.now at ≡ block_node asked count }
    ensures value { said result ≡ answer_in source.now held.old deep depth at }
    ensures noted_by { NotedBy (tables_in source.now) (scopes_in source.now held.old deep) (value_in source.now depth at) at notes.old notes.new }
    ensures held_unchanged { held.new ≡ held.old }
{
    let cat = source.cat;
    let nc = source.files.nc;
    let down = depth - 1;
    let next = at + 1;
    let own = blocks::open_block(source, next, count)?;
    notes::note(notes, at, 0);
    notes::tables(source, next, count, notes);
    let test = within(source, next + count, down, held, deep, own, notes)?;
    let opened = blocks::Opened { own, cat, nc };
    match asked {
        Asked::Rows(fold) => opened.exists(at as u16, fold, test),
        Asked::Values(pick) => {
            let then = usize::from(test.next);
            let each = within(source, then, down, held, deep, own, notes)?;
            opened.single(at as u16, pick, test, each)
        }
    }
}
