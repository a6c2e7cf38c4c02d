// The operators on values: sums, products, tests, three-valued logic, NOT and CONV.
// Every public function is total; an operand of a wrong kind gives None.
#![tactic(auto, unfolding(crate::specs::Values::is_null, crate::specs::Values::kind_v, crate::specs::Values::as_truth, crate::specs::Values::as_fixed, crate::specs::Values::as_time, crate::specs::Values::as_interval, crate::specs::Values::as_class, crate::specs::Apply::or_null, crate::specs::Apply::sum_n, crate::specs::Apply::product_n, crate::specs::Apply::order_n, crate::specs::Apply::equal_n, crate::specs::Apply::equal_v, crate::specs::Apply::settled, crate::specs::Apply::logic_v, crate::specs::Apply::as3, crate::specs::Apply::of3, crate::specs::Apply::as_cond, crate::specs::Apply::negate, crate::specs::Apply::convert, crate::specs::Apply::apply, crate::specs::Res::bind, crate::specs::Res::option_of))]

ghost use Rattle.std.specs.Prelude.{◌≡◌, cond, not, ◌≤◌, max, eqb};
ghost use Rattle.cell.specs.Res.{bind, done, option_of, stuck};
ghost use Rattle.cell.specs.Op.{number_of};
ghost use Rattle.cell.specs.Values.{is_null};
ghost use Rattle.cell.specs.Apply.{apply, as_cond, convert, cut_fixed, cut_interval, cut_time, equal_n, equal_v, equal_z, logic_v, negate, or_null, order_n, order_takes, order_z, product_fixed, product_interval, product_n, product_takes, ruled, settled, sum_n, sum_takes, sum_z, up_to};
ghost use Rattle.cell.specs.declared.Value.TheVariants.{Fixed};

use crate::numbers::{
    cut_fixed, cut_interval, cut_time, in_order, product_cut, raised, rescaled, scaled_cut, total,
};
use crate::{Op, Value};

impl Value {
    /// Whether it is null.
    pub fn is_null(self) -> bool
        ensures { result ≡ is_null self }
    {
        matches!(self, Value::Null)
    }

    // Stays: the scales and mantissas s, m, r, n one by one. With a struct of both mantissas at one scale, made by one function, the sum's and the order's proofs stayed open.
    /// The sum or the difference of two fixed values, at so many digits and the larger scale.
    fn sum_fixed(op: Op, digits: u8, s: u8, m: i32, r: u8, n: i32) -> Option<Value>
        ensures { result ≡ option_of (sum_n (number_of op) digits (Fixed s m) (Fixed r n)) }
    {
        if digits > 9 || s > 4 || r > 4 {
            return None;
        }
        let scale = s.max(r);
        Some(cut_fixed(
            digits,
            scale,
            total(op, raised(m, s, scale), raised(n, r, scale)),
        ))
    }

    /// Plus and minus.
    fn sum(op: Op, digits: u8, left: Value, right: Value) -> Option<Value>
        ensures { result ≡ option_of (or_null sum_takes left right (sum_n (number_of op) digits left right)) }
    {
        match (left, right) {
            (Value::Null, Value::Null | Value::Interval(_))
            | (Value::Time(_) | Value::Interval(_), Value::Null) => Some(Value::Null),
            (Value::Null, Value::Fixed(scale, _)) | (Value::Fixed(scale, _), Value::Null)
                if scale <= 4 => Some(Value::Null),
            (Value::Fixed(s, m), Value::Fixed(r, n)) => Value::sum_fixed(op, digits, s, m, r, n),
            (Value::Time(m), Value::Interval(n)) => Some(cut_time(total(
                op,
                i64::from(m),
                i64::from(n),
            ))),
            (Value::Interval(m), Value::Interval(n)) => Some(cut_interval(total(
                op,
                i64::from(m),
                i64::from(n),
            ))),
            _ => None,
        }
    }

    /// The product or the quotient of two fixed values, at so many digits and the larger scale.
    #[tactic(auto, unfolding(crate::specs::Values::as_fixed, crate::specs::Apply::product_n, crate::specs::Apply::product_fixed, crate::specs::Res::bind, crate::specs::Res::option_of))]
    fn product_fixed(op: Op, digits: u8, s: u8, m: i32, r: u8, n: i32) -> Option<Value>
        ensures { result ≡ option_of (product_n (number_of op) digits (Fixed s m) (Fixed r n)) }
    {
        if digits > 9 || s > 4 || r > 4 {
            return None;
        }
        let scale = s.max(r);
        if op == Op::Times {
            return Some(cut_fixed(digits, scale, product_cut(m, n, s.min(r))));
        }
        if n == 0 {
            return Some(Value::Null);
        }
        Some(cut_fixed(digits, scale, scaled_cut(m, scale - s + r, n)))
    }

    /// An interval by a fixed value m at scale s.
    #[tactic(auto, unfolding(crate::specs::Apply::product_interval))]
    fn product_interval(op: Op, interval: i32, s: u8, m: i32) -> Value
        requires { s ≤ 4 }
        ensures { result ≡ product_interval (number_of op) interval s m }
    {
        if op == Op::Times {
            return cut_interval(product_cut(interval, m, s));
        }
        if m == 0 {
            return Value::Null;
        }
        cut_interval(scaled_cut(interval, s, m))
    }

    /// Times and divide.
    fn product(op: Op, digits: u8, left: Value, right: Value) -> Option<Value>
        ensures { result ≡ option_of (or_null product_takes left right (product_n (number_of op) digits left right)) }
    {
        match (left, right) {
            (Value::Null | Value::Interval(_), Value::Null) => Some(Value::Null),
            (Value::Null, Value::Fixed(scale, _)) | (Value::Fixed(scale, _), Value::Null)
                if scale <= 4 => Some(Value::Null),
            (Value::Fixed(s, m), Value::Fixed(r, n)) => Value::product_fixed(
                op, digits, s, m, r, n,
            ),
            (Value::Interval(i), Value::Fixed(s, m)) if s <= 4 => Some(Value::product_interval(
                op, i, s, m,
            )),
            _ => None,
        }
    }

    /// The order of two fixed values.
    fn order_fixed(op: Op, s: u8, m: i32, r: u8, n: i32) -> Option<Value>
        ensures { result ≡ option_of (bind (order_n (number_of op) (Fixed s m) (Fixed r n)) (λ b. done (Value.Truth b))) }
    {
        if s > 4 || r > 4 {
            return None;
        }
        let scale = s.max(r);
        Some(Value::Truth(in_order(op, raised(m, s, scale), raised(n, r, scale))))
    }

    /// A test of order.
    fn order(op: Op, left: Value, right: Value) -> Option<Value>
        ensures { result ≡ option_of (or_null order_takes left right (bind (order_n (number_of op) left right) (λ b. done (Value.Truth b)))) }
    {
        match (left, right) {
            (Value::Null, Value::Null | Value::Time(_) | Value::Interval(_))
            | (Value::Time(_) | Value::Interval(_), Value::Null) => Some(Value::Null),
            (Value::Null, Value::Fixed(scale, _)) | (Value::Fixed(scale, _), Value::Null)
                if scale <= 4 => Some(Value::Null),
            (Value::Fixed(s, m), Value::Fixed(r, n)) => Value::order_fixed(op, s, m, r, n),
            (Value::Time(m), Value::Time(n)) | (Value::Interval(m), Value::Interval(n)) => Some(
                Value::Truth(in_order(op, i64::from(m), i64::from(n))),
            ),
            _ => None,
        }
    }

    /// Whether two fixed values are equal.
    fn equal_fixed(s: u8, m: i32, r: u8, n: i32) -> Option<bool>
        ensures { result ≡ option_of (equal_n (Fixed s m) (Fixed r n)) }
    {
        if s > 4 || r > 4 {
            return None;
        }
        let scale = s.max(r);
        Some(raised(m, s, scale) == raised(n, r, scale))
    }

    /// Whether two values are equal; null equals null and nothing else.
    fn equal(left: Value, right: Value) -> Option<bool>
        ensures { result ≡ option_of (equal_v left right) }
    {
        match (left, right) {
            (Value::Null, _) => Some(right.is_null()),
            (_, Value::Null) => Some(false),
            (Value::Truth(a), Value::Truth(b)) => Some(a == b),
            (Value::Fixed(s, m), Value::Fixed(r, n)) => Value::equal_fixed(s, m, r, n),
            (Value::Time(m), Value::Time(n)) | (Value::Interval(m), Value::Interval(n)) => Some(
                m == n,
            ),
            (Value::Class(a), Value::Class(b)) => Some(a == b),
            _ => None,
        }
    }

    /// Equal, or not equal.
    fn equality(op: Op, left: Value, right: Value) -> Option<Value>
        ensures { result ≡ option_of (bind (equal_v left right) (λ b. done (Value.Truth (cond (eqb (number_of op) 9) b (not b))))) }
    {
        let equal = Value::equal(left, right)?;
        Some(Value::Truth(if op == Op::Equal { equal } else { !equal }))
    }

    /// Whether the left operand of and, or decides alone.
    pub fn settles(self, op: u8) -> bool
        ensures { result ≡ settled op self }
    {
        match self {
            Value::Truth(truth) => (op == Op::And as u8 && !truth) || (op == Op::Or as u8 && truth),
            _ => false,
        }
    }

    /// And, or: a truth that doesn't decide leaves it to the right operand; beside null only one that decides is known.
    fn logic(op: Op, left: Value, right: Value) -> Option<Value>
        requires { (5 ≤ number_of op) × (number_of op ≤ 6) }
        ensures { result ≡ option_of (logic_v (number_of op) left right) }
    {
        if left.settles(op as u8) {
            return Some(left);
        }
        match (left, right) {
            (Value::Truth(_), Value::Null | Value::Truth(_)) => Some(right),
            (Value::Null, Value::Truth(_)) if right.settles(op as u8) => Some(right),
            (Value::Null, Value::Null | Value::Truth(_)) => Some(Value::Null),
            _ => None,
        }
    }

    /// An operator on two values, for so many digits of a fixed result; none at an operand of a wrong kind.
    pub fn apply(op: u8, digits: u8, left: Value, right: Value) -> Option<Value>
        ensures { result ≡ option_of (apply op digits left right) }
    {
        let Ok(op) = Op::try_from(op) else {
            return None;
        };
        match op {
            Op::Plus | Op::Minus => Value::sum(op, digits, left, right),
            Op::Times | Op::Divide => Value::product(op, digits, left, right),
            Op::And | Op::Or => Value::logic(op, left, right),
            Op::Equal | Op::NotEqual => Value::equality(op, left, right),
            Op::Less | Op::LessOrEqual | Op::GreaterOrEqual | Op::Greater => Value::order(
                op, left, right,
            ),
        }
    }

    /// NOT; none at a wrong kind.
    pub fn negate(self) -> Option<Value>
        ensures { result ≡ option_of (negate self) }
    {
        match self {
            Value::Null => Some(Value::Null),
            Value::Truth(truth) => Some(Value::Truth(!truth)),
            _ => None,
        }
    }

    /// Whether a condition is true; null isn't. None at a wrong kind.
    pub fn is_true(self) -> Option<bool>
        ensures { result ≡ option_of (as_cond self) }
    {
        match self {
            Value::Null => Some(false),
            Value::Truth(truth) => Some(truth),
            _ => None,
        }
    }

    /// CONV to so many digits at a scale; none at a wrong kind, and where digits or scale are out of rule.
    pub fn convert(self, digits: u8, scale: u8) -> Option<Value>
        ensures { result ≡ option_of (convert digits scale self) }
    {
        match self {
            Value::Null => Some(Value::Null),
            Value::Fixed(s, m) if s <= 4 && scale <= 4 && digits <= 9 => Some(cut_fixed(
                digits,
                scale,
                rescaled(m, s, scale),
            )),
            _ => None,
        }
    }
}
