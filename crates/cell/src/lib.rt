// Types and values of cells, the type rules, and the operators on values.
// Every public function is total; an operand of a wrong kind gives None.
#![tactic(auto)]

mod numbers;
mod op;
mod operators;
mod types;

pub use op::{NoOp, Op};
pub use types::{digits_rule, type_by, type_rule};

/// The type of a value: a fixed one's digits and scale, the format of a time or an interval.
#[derive(Clone, Copy, PartialEq, Eq, Debug)]
pub enum Type {
    Null,
    Boolean,
    Fixed(u8, u8),
    Time(u8),
    Interval(u8),
    Class,
}

/// A value: a fixed one's scale and mantissa, the number of a time or an interval, the word of a class.
#[derive(Clone, Copy, PartialEq, Eq, Debug)]
pub enum Value {
    Null,
    Truth(bool),
    Fixed(u8, i32),
    Time(i32),
    Interval(i32),
    Class(u16),
}

/// A value and its class.
#[derive(Clone, Copy, PartialEq, Eq, Debug)]
pub struct Cell {
    pub value: Value,
    pub class: u16,
}
