// The kinds of a tree's records, each as a record whose op and fields are 0.
// A writer fills in what its record has, as in `Record { a: class, ..kinds::CLASS }`.
use word::Record;

/// The null constant.
pub const NULL: Record = Record {
    kind: 1,
    op: 0,
    a: 0,
    b: 0,
    c: 0,
};

/// A fixed class, a.
pub const CLASS: Record = Record { kind: 6, ..NULL };

/// BINOP: its op, and a, its digits; two children.
pub const BINOP: Record = Record { kind: 7, ..NULL };

/// NOT: one child.
pub const NOT: Record = Record { kind: 8, ..NULL };

/// IF: three children.
pub const IF: Record = Record { kind: 9, ..NULL };

/// EXISTS over a tables: their TABLE records, then the where.
pub const EXISTS: Record = Record { kind: 10, ..NULL };

/// VALUE over a tables: their TABLE records, then the where and the value.
pub const VALUE: Record = Record { kind: 11, ..NULL };

/// A table of a block, a its number in the catalogue.
pub const TABLE: Record = Record { kind: 12, ..NULL };

/// SELECT over a tables of b values: the TABLE records, the test, then pairs of data and class.
pub const SELECT: Record = Record { kind: 13, ..NULL };

/// DATA: a scopes outward, table b of its block, column c.
pub const DATA: Record = Record { kind: 17, ..NULL };

/// CELLCLASS: the class of the same.
pub const CELL_CLASS: Record = Record { kind: 18, ..NULL };

/// ROWCLASS: a scopes outward, table b of its block.
pub const ROW_CLASS: Record = Record { kind: 19, ..NULL };

/// LOCAL: a scopes outward.
pub const LOCAL: Record = Record { kind: 20, ..NULL };

/// LOCALCLASS: the class of the same.
pub const LOCAL_CLASS: Record = Record { kind: 21, ..NULL };

/// CONV: its op is 16 times the digits, and the scale; one child.
pub const CONV: Record = Record { kind: 22, ..NULL };

/// BIND: a value, then the body.
pub const BIND: Record = Record { kind: 23, ..NULL };

/// BINDC: the value's class, the value, then the body.
pub const BIND_CLASS: Record = Record { kind: 24, ..NULL };

/// LUB: two children.
pub const LUB: Record = Record { kind: 25, ..NULL };

/// DOM: two children.
pub const DOM: Record = Record { kind: 26, ..NULL };

/// AGG over a tables: their TABLE records, then what is read at a row.
pub const AGG: Record = Record { kind: 27, ..NULL };

/// COUNT over a tables, its op 16 times its digits: as EXISTS.
pub const COUNT: Record = Record { kind: 28, ..NULL };

/// MAX over a tables: as VALUE.
pub const MAX: Record = Record { kind: 29, ..NULL };

/// MIN over a tables: as VALUE.
pub const MIN: Record = Record { kind: 30, ..NULL };
