// The structural check of a view: its records stand in prefix order, and are walked once.
// The definitions are in specs/: Record says what a record means, Parse what a view is.
#![tactic(auto)]

mod reader;

ghost use Rattle.std.specs.Prelude.{◌≡◌, ◌&&◌, ◌+◌, ◌*◌, ◌/◌, ◌%◌, ◌≤◌, ◌<◌, true, length};
ghost use Rattle.word.specs.Refusal.{said};
ghost use Rattle.cell.specs.Types.{digits_rule};
ghost use Rattle.cell.specs.Values.{digits};
ghost use Rattle.view.specs.Record.{bare, op_only, a_only, counts, value_in, in_rule, node_of, node_at, slot_of, shape_of};
ghost use Rattle.view.specs.Parse.{parse_root, place_of, check_of};
ghost use Rattle.view.specs.Walk.{table_at, tables_at, value_at, values_at, block_at, read_to, Walked};

use reader::Reader;
use word::{Reason, Record, Refusal};

/// What a block without a value says of its kept rows: whether there is one (EXISTS), or how many, in so many digits (COUNT).
#[derive(Clone, Copy, PartialEq, Eq, Debug)]
pub enum Fold {
    Any,
    Count(u8),
}

/// Which of the kept rows' values a block gives: the only one (VALUE), the greatest (MAX), the least (MIN).
#[derive(Clone, Copy, PartialEq, Eq, Debug)]
pub enum Pick {
    Only,
    Greatest,
    Least,
}

/// What a record says: its kind with the fields that the kind has. Bad: an unknown kind or op, or a field out of rule.
// Stays: `Bad` is a case of the definition `node_of` of specs/Record, which the definitions of the crates above take apart.
#[derive(Clone, Copy, PartialEq, Eq, Debug)]
pub enum Node {
    Const(cell::Type, cell::Value),
    Binop(u8),
    Not,
    If,
    Exists(u16, Fold),
    Single(u16, Pick),
    Table(u16),
    Select(u16, u16),
    Col(u16, u16),
    Classof(u16, u16),
    Let(u16),
    Bad,
}

/// What follows the record of a value: so many values, or a block over so many tables with so many values.
#[derive(Clone, Copy, PartialEq, Eq, Debug)]
pub enum Shape {
    Values(u16),
    Block { tables: u16, values: u16 },
}

impl Node {
    /// What follows a value's record; TABLE, SELECT and a bad record are no values.
    #[tactic(auto, unfolding(crate::specs::Record::shape_of))]
    #[inline(always)]
    fn shape(self) -> Option<Shape>
        ensures { result ≡ shape_of self }
    {
        match self {
            Node::Const(_, _) | Node::Col(_, _) | Node::Classof(_, _) => Some(Shape::Values(0)),
            Node::Not => Some(Shape::Values(1)),
            Node::Binop(_) | Node::Let(_) => Some(Shape::Values(2)),
            Node::If => Some(Shape::Values(3)),
            Node::Exists(tables, _) => Some(Shape::Block { tables, values: 0 }),
            Node::Single(tables, _) => Some(Shape::Block { tables, values: 1 }),
            _ => None,
        }
    }
}

/// No field is named.
fn bare(fields: Record) -> bool
    ensures { result ≡ bare fields }
{
    ((fields.op == 0) & (fields.a == 0)) & ((fields.b == 0) & (fields.c == 0))
}

/// No field but op is named.
fn op_only(fields: Record) -> bool
    ensures { result ≡ op_only fields }
{
    (fields.a == 0) & ((fields.b == 0) & (fields.c == 0))
}

/// No field but a is named.
fn a_only(fields: Record) -> bool
    ensures { result ≡ a_only fields }
{
    (fields.op == 0) & ((fields.b == 0) & (fields.c == 0))
}

/// COUNT's op: 1 to 9 digits at scale 0; no other field but a is named.
fn counts(fields: Record) -> bool
    ensures { result ≡ counts fields }
{
    let digits = fields.op / 16;
    (1..=9).contains(&digits) & ((fields.op % 16 == 0) & ((fields.b == 0) & (fields.c == 0)))
}

/// A signed value: low half b, high half c.
fn value_in(fields: Record) -> i32
    ensures { result ≡ value_in fields }
{
    word::to_signed(u32::from(fields.b) + 65536 * u32::from(fields.c))
}

/// Whether a FIXED's value has its number of digits, and these and its scale are in rule.
#[tactic(auto, using(crate::proofs::Nodes::rule_few))]
fn fixed_rule(fields: Record) -> bool
    ensures { result ≡ (digits_rule (fields.op / 16) (fields.op % 16) && digits (fields.op / 16) (value_in fields)) }
{
    let digits = fields.op / 16;
    if cell::digits_rule(digits, fields.op % 16) {
        value_in(fields).unsigned_abs() < 10u32.pow(u32::from(digits))
    } else {
        false
    }
}

/// Whether a record's kind is known and its fields keep the kind's rule: whether it says a node.
#[tactic(auto, using(crate::proofs::Rules::rule))]
#[inline(always)]
pub(crate) fn is_in_rule(fields: Record) -> bool
    ensures { result ≡ in_rule fields }
{
    let op = fields.op;
    let a = fields.a;
    let plain = (op == 0) & (fields.c == 0);
    // Stays: comparisons, since with `(1..=4).contains(&a)` the proofs of the arms that test a second range stayed open, also with a law for each kind.
    let over = (1 <= a) & (a <= 4);
    // Stays: an arm for each kind. Arms that share a pattern, as `14 | 15`, are compiled to a ladder of tests, and the check of a view then took a fifth longer.
    match fields.kind {
        1 => bare(fields),
        2 => (op <= 1) & op_only(fields),
        3 => (a == 0) & fixed_rule(fields),
        4 => a == 0,
        5 => a == 0,
        6 => a_only(fields),
        7 => ((1 <= op) & (op <= 12)) & op_only(fields),
        8 => bare(fields),
        9 => bare(fields),
        10 => over & a_only(fields),
        11 => over & a_only(fields),
        12 => (1 <= a) & a_only(fields),
        13 => (over & ((1 <= fields.b) & (fields.b <= 32))) & plain,
        14 => (1 <= a) & plain,
        15 => (1 <= a) & plain,
        16 => (1 <= a) & a_only(fields),
        28 => over & counts(fields),
        29 => over & a_only(fields),
        30 => over & a_only(fields),
        _ => false,
    }
}

/// The node that a record in rule says, by its kind.
#[tactic(auto, using(crate::proofs::Rules::sound))]
#[inline(always)]
pub(crate) fn node_of(fields: Record) -> Node
    requires { in_rule fields ≡ true }
    ensures { result ≡ node_of fields }
{
    let op = fields.op;
    let a = fields.a;
    match fields.kind {
        1 => Node::Const(cell::Type::Null, cell::Value::Null),
        2 => Node::Const(cell::Type::Boolean, cell::Value::Truth(op == 1)),
        3 => Node::Const(
            cell::Type::Fixed(op / 16, op % 16),
            cell::Value::Fixed(op % 16, value_in(fields)),
        ),
        4 => Node::Const(cell::Type::Time(op), cell::Value::Time(value_in(fields))),
        5 => Node::Const(
            cell::Type::Interval(op),
            cell::Value::Interval(value_in(fields)),
        ),
        6 => Node::Const(cell::Type::Class, cell::Value::Class(a)),
        7 => Node::Binop(op),
        8 => Node::Not,
        9 => Node::If,
        10 => Node::Exists(a, Fold::Any),
        11 => Node::Single(a, Pick::Only),
        12 => Node::Table(a),
        13 => Node::Select(a, fields.b),
        14 => Node::Col(a, fields.b),
        15 => Node::Classof(a, fields.b),
        16 => Node::Let(a),
        28 => Node::Exists(a, Fold::Count(op / 16)),
        29 => Node::Single(a, Pick::Greatest),
        30 => Node::Single(a, Pick::Least),
        _ => Node::Bad,
    }
}

/// The node of record i of a view.
#[tactic(auto, unfolding(crate::specs::Record::node_at), using(crate::proofs::Rules::out_of_rule))]
pub fn node_at(view: &[u8], i: usize) -> Node
    requires { 8 + 8 * i + 8 ≤ length view.now }
    ensures { result ≡ node_at view.now i }
{
    let fields = word::record_at(view, i);
    if is_in_rule(fields) {
        node_of(fields)
    } else {
        Node::Bad
    }
}

/// The node of record i of a view, which is known to stand in a value's place: its rule isn't tested again.
#[tactic(auto, unfolding(crate::specs::Record::node_at), using(crate::proofs::Rules::value_in_rule))]
pub fn sound_at(view: &[u8], i: usize) -> Node
    requires i_in_bounds { 8 + 8 * i + 8 ≤ length view.now }
    requires i_value { slot_of (node_at view.now i) ≡ 1 }
    ensures { result ≡ node_at view.now i }
{
    node_of(word::record_at(view, i))
}

/// A TABLE record, with so many levels left.
#[tactic(auto, using(crate::proofs::Turns::tabling))]
fn table(reader: &mut Reader<'_>, depth: u16) -> Result<(), Refusal>
    ensures { Walked (table_at reader.old depth) reader.old reader.new result }
{
    let Node::Table(_) = reader.peek()? else {
        return Err(Refusal {
            reason: Reason::WrongPlace,
            place: reader.place,
        });
    };
    if depth == 0 {
        return Err(Refusal {
            reason: Reason::TooDeep,
            place: reader.place,
        });
    }
    reader.next();
    Ok(())
}

/// So many TABLE records.
#[tactic(auto, using(crate::proofs::Turns::repeats))]
fn tables(reader: &mut Reader<'_>, count: u16, depth: u16) -> Result<(), Refusal>
    ensures { Walked (tables_at reader.old count depth) reader.old reader.new result }
{
    for _ in 0..count {
        table(reader, depth)?;
    }
    Ok(())
}

/// A value, with so many levels left: what follows its record goes by the node's shape.
#[cycle(block_value_values)]
#[tactic(auto, using(crate::proofs::Turns::turns))]
fn value(reader: &mut Reader<'_>, depth: u16) -> Result<(), Refusal>
    ensures { Walked (value_at reader.old depth) reader.old reader.new result }
{
    let Some(shape) = reader.peek()?.shape() else {
        return Err(Refusal {
            reason: Reason::WrongPlace,
            place: reader.place,
        });
    };
    if depth == 0 {
        return Err(Refusal {
            reason: Reason::TooDeep,
            place: reader.place,
        });
    }
    reader.next();
    match shape {
        Shape::Values(count) => values(reader, count, depth - 1),
        Shape::Block { tables, values } => block(reader, tables, values, depth - 1),
    }
}

/// So many values.
// Stays: a loop like that of `tables`, three lines each. One function over what is read would need a closure in the cycle of calls, and its clause would be longer than the loop.
#[cycle(block_value_values)]
#[tactic(auto, using(crate::proofs::Turns::repeats))]
fn values(reader: &mut Reader<'_>, count: u16, depth: u16) -> Result<(), Refusal>
    ensures { Walked (values_at reader.old count depth) reader.old reader.new result }
{
    for _ in 0..count {
        value(reader, depth)?;
    }
    Ok(())
}

/// A block: its tables, its where, its values.
#[cycle(block_value_values)]
#[tactic(auto, using(crate::proofs::Turns::turns))]
fn block(
    reader: &mut Reader<'_>,
    table_count: u16,
    value_count: u16,
    depth: u16,
) -> Result<(), Refusal>
    ensures { Walked (block_at reader.old table_count value_count depth) reader.old reader.new result }
{
    tables(reader, table_count, depth)?;
    value(reader, depth)?;
    values(reader, value_count, depth)
}

/// The whole tree: SELECT and its block, and nothing after the root's end.
#[tactic(auto, using(crate::proofs::Turns::rooting))]
fn root(reader: &mut Reader<'_>) -> Result<(), Refusal>
    requires { reader.old.place ≡ 0 }
    ensures { read_to reader.new.place result ≡ place_of (parse_root reader.old.view.now reader.old.count) }
{
    let Node::Select(tables, values) = reader.peek()? else {
        return Err(Refusal {
            reason: Reason::WrongPlace,
            place: 0,
        });
    };
    reader.next();
    block(reader, tables, values, 15)?;
    if reader.place != reader.count {
        return Err(Refusal {
            reason: Reason::WrongPlace,
            place: reader.place,
        });
    }
    Ok(())
}

/// The check of a view: its header, its count and length, its tree; the number of its records.
#[tactic(auto, using(crate::proofs::Turns::checking))]
pub fn check(view: &[u8]) -> Result<usize, Refusal>
    ensures { said result ≡ check_of view.now }
{
    if !word::opens(view, b"DRQ\0") {
        return Err(Refusal {
            reason: Reason::ViewHeader,
            place: 0,
        });
    }
    let count = word::u16_at(view, 6);
    if !(1..=1024).contains(&count) || view.len() != 8 + 8 * usize::from(count) {
        return Err(Refusal {
            reason: Reason::ViewLength,
            place: 0,
        });
    }
    let mut reader = Reader::new(view, count);
    root(&mut reader)?;
    Ok(usize::from(reader.place))
}
