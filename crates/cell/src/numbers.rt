// Signed numbers: powers of ten, sums, products and quotients of mantissas in 64 bits, and results cut to what holds them.
// The bounds that the private functions require keep every step within 64 bits.
#![tactic(auto, using(crate::proofs::Tens::tens), unfolding(crate::specs::Apply::cut_fixed, crate::specs::Apply::cut_time, crate::specs::Apply::cut_interval))]

ghost use Rattle.std.specs.Prelude.{◌≡◌, ◌<◌, ◌≤◌, ◌-◌, ◌^◌, pos, nat_abs, ◌*ℤ◌};
ghost use Rattle.std.specs.Int.Signed.{quot_z};
ghost use Rattle.cell.specs.Op.{number_of};
ghost use Rattle.cell.specs.Apply.{cut_fixed, cut_interval, cut_time, order_z, sum_z, up_to};

use crate::{Op, Value};

// Stays: a table, and no `pow`, which proves but whose loop takes 6 ns a call.
/// 10 to a power that 64 bits hold.
pub fn power_of_ten(exponent: u8) -> u64
    requires { exponent < 20 }
    ensures { result ≡ 10 ^ exponent }
{
    match exponent {
        0 => 1,
        1 => 10,
        2 => 100,
        3 => 1_000,
        4 => 10_000,
        5 => 100_000,
        6 => 1_000_000,
        7 => 10_000_000,
        8 => 100_000_000,
        9 => 1_000_000_000,
        10 => 10_000_000_000,
        11 => 100_000_000_000,
        12 => 1_000_000_000_000,
        13 => 10_000_000_000_000,
        14 => 100_000_000_000_000,
        15 => 1_000_000_000_000_000,
        16 => 10_000_000_000_000_000,
        17 => 100_000_000_000_000_000,
        18 => 1_000_000_000_000_000_000,
        _ => 10_000_000_000_000_000_000,
    }
}

/// 10 to a power, signed.
fn signed_power_of_ten(exponent: u8) -> i64
    requires { exponent < 10 }
    ensures { result ≡ pos (10 ^ exponent) }
{
    power_of_ten(exponent) as i64
}

/// m times 10^k.
pub fn scaled(m: i32, k: u8) -> i64
    requires { k < 10 }
    ensures value { result ≡ m *ℤ pos (10 ^ k) }
    ensures bound { nat_abs result ≤ 2 ^ 61 }
{
    i64::from(m) * signed_power_of_ten(k)
}

/// m at scale s, brought to the scale t.
pub fn raised(m: i32, s: u8, t: u8) -> i64
    requires { (s ≤ t) × (t ≤ 4) }
    ensures value { result ≡ up_to t s m }
    ensures bound { nat_abs result ≤ 2 ^ 61 }
{
    scaled(m, t - s)
}

/// m times n, divided by 10^k.
pub fn product_cut(m: i32, n: i32, k: u8) -> i64
    requires { k < 10 }
    ensures { result ≡ quot_z (m *ℤ n) (pos (10 ^ k)) }
{
    i64::from(m) * i64::from(n) / signed_power_of_ten(k)
}

/// m times 10^k, divided by n.
pub fn scaled_cut(m: i32, k: u8, n: i32) -> i64
    requires { (k < 10) × (0 < nat_abs n) }
    ensures { result ≡ quot_z (m *ℤ pos (10 ^ k)) n }
{
    scaled(m, k) / i64::from(n)
}

/// m at scale s brought to the scale r, cut towards zero where that is smaller.
pub fn rescaled(m: i32, s: u8, r: u8) -> i64
    requires { (s ≤ 4) × (r ≤ 4) }
    ensures { result ≡ quot_z (m *ℤ pos (10 ^ (r - s))) (pos (10 ^ (s - r))) }
{
    scaled(m, r.saturating_sub(s)) / signed_power_of_ten(s.saturating_sub(r))
}

/// Plus, or minus.
pub fn total(op: Op, a: i64, b: i64) -> i64
    requires { (nat_abs a ≤ 2 ^ 61) × (nat_abs b ≤ 2 ^ 61) }
    ensures { result ≡ sum_z (number_of op) a b }
{
    if op == Op::Plus { a + b } else { a - b }
}

/// Less, less or equal, greater or equal, or greater.
pub fn in_order(op: Op, a: i64, b: i64) -> bool
    ensures { result ≡ order_z (number_of op) a b }
{
    match op {
        Op::Less => a < b,
        Op::LessOrEqual => a <= b,
        Op::GreaterOrEqual => a >= b,
        _ => a > b,
    }
}

/// m at scale s, or null where p digits don't hold it.
pub fn cut_fixed(p: u8, s: u8, m: i64) -> Value
    requires { p < 10 }
    ensures { result ≡ cut_fixed p s m }
{
    if m.unsigned_abs() < power_of_ten(p) {
        Value::Fixed(s, m as i32)
    } else {
        Value::Null
    }
}

/// m, or null where 32 bits don't hold it.
pub fn cut_time(m: i64) -> Value
    ensures { result ≡ cut_time m }
{
    i32::try_from(m).map_or(Value::Null, Value::Time)
}

/// m, or null where 32 bits don't hold it.
pub fn cut_interval(m: i64) -> Value
    ensures { result ≡ cut_interval m }
{
    i32::try_from(m).map_or(Value::Null, Value::Interval)
}
