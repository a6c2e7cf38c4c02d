// Types by the catalogue's words, and the type rules of operators and of IF.
// Every public function is total.
#![tactic(auto, unfolding(crate::specs::Types::digits_rule, crate::specs::Types::type_rule, crate::specs::Types::type_by, crate::specs::Types::word_of, crate::specs::Types::kind_of, crate::specs::Types::digits_of, crate::specs::Types::scale_of, crate::specs::Types::format_of, crate::specs::Types::wider_of, crate::specs::Types::sum_type, crate::specs::Types::product_type, crate::specs::Types::logic_type, crate::specs::Types::order_type, crate::specs::Types::equal_type, crate::specs::Types::same_type, crate::specs::Types::limb_type, crate::specs::Types::binop_type, crate::specs::Res::option_of))]

ghost use Rattle.std.specs.Prelude.{◌≡◌, ◌/◌, ◌%◌, ◌≤◌};
ghost use Rattle.cell.specs.Res.{option_of};
ghost use Rattle.cell.specs.Types.{binop_type, digits_of, digits_rule, equal_type, format_of, kind_of, limb_type, logic_type, order_type, product_type, same_type, scale_of, sum_type, type_by, type_rule, wider_of, word_of};

use crate::Type;

/// Whether so many digits at a scale are in rule.
pub fn digits_rule(p: u8, s: u8) -> bool
    ensures { result ≡ digits_rule p s }
{
    (1..=9).contains(&p) && s <= 4 && s <= p
}

/// Whether a word of the catalogue says a type.
pub fn type_rule(word: u16) -> bool
    ensures { result ≡ type_rule (word / 256) (word % 256) }
{
    let [low, high] = word.to_le_bytes();
    match high {
        1 | 5 => low == 0,
        2 => digits_rule(low / 16, low % 16),
        3 | 4 => true,
        _ => false,
    }
}

// Stays: Null and no Option for a word that says no type: the definition of a column's type says so for every word.
/// The type that a word of the catalogue says; Null where it says none.
pub fn type_by(word: u16) -> Type
    ensures { result ≡ type_by (word / 256) (word % 256) }
{
    let [low, high] = word.to_le_bytes();
    match high {
        1 => Type::Boolean,
        2 => Type::Fixed(low / 16, low % 16),
        3 => Type::Time(low),
        4 => Type::Interval(low),
        5 => Type::Class,
        _ => Type::Null,
    }
}

impl From<Type> for u16 {
    ghost from_gives = { λ t word. word ≡ word_of t };

    /// The word of a type.
    fn from(t: Type) -> u16 {
        match t {
            Type::Null => 0,
            Type::Boolean => 256,
            Type::Fixed(p, s) => 512 + (16 * u16::from(p) + u16::from(s)),
            Type::Time(f) => 768 + u16::from(f),
            Type::Interval(f) => 1024 + u16::from(f),
            Type::Class => 1280,
        }
    }
}

impl Type {
    /// The number of the kind, as the catalogue has it; 0 for null.
    pub fn kind(self) -> u8
        ensures { result ≡ kind_of self }
    {
        match self {
            Type::Null => 0,
            Type::Boolean => 1,
            Type::Fixed(_, _) => 2,
            Type::Time(_) => 3,
            Type::Interval(_) => 4,
            Type::Class => 5,
        }
    }

    /// The digits of a fixed type; else 0.
    pub fn digits(self) -> u8
        ensures { result ≡ digits_of self }
    {
        match self {
            Type::Fixed(digits, _) => digits,
            _ => 0,
        }
    }

    /// The scale of a fixed type; else 0.
    pub fn scale(self) -> u8
        ensures { result ≡ scale_of self }
    {
        match self {
            Type::Fixed(_, scale) => scale,
            _ => 0,
        }
    }

    /// The format of a time or an interval; else 0.
    pub fn format(self) -> u8
        ensures { result ≡ format_of self }
    {
        match self {
            Type::Time(format) | Type::Interval(format) => format,
            _ => 0,
        }
    }

    /// Two fixed types give the larger digits and the larger scale.
    fn wider(self, other: Type) -> Type
        ensures { result ≡ wider_of self other }
    {
        Type::Fixed(
            self.digits().max(other.digits()),
            self.scale().max(other.scale()),
        )
    }

    /// The type of plus and minus: two fixed; a time with an interval; two intervals of one format.
    fn sum(left: Type, right: Type) -> Option<Type>
        ensures { result ≡ option_of (sum_type left right) }
    {
        match (left, right) {
            (Type::Fixed(_, _), Type::Fixed(_, _)) => Some(left.wider(right)),
            (Type::Time(f), Type::Interval(_)) => Some(Type::Time(f)),
            (Type::Interval(f), Type::Interval(g)) if f == g => Some(Type::Interval(f)),
            _ => None,
        }
    }

    /// The type of times and divide: two fixed; an interval with a fixed one.
    fn product(left: Type, right: Type) -> Option<Type>
        ensures { result ≡ option_of (product_type left right) }
    {
        match (left, right) {
            (Type::Fixed(_, _), Type::Fixed(_, _)) => Some(left.wider(right)),
            (Type::Interval(f), Type::Fixed(_, _)) => Some(Type::Interval(f)),
            _ => None,
        }
    }

    /// The type of and, or: two booleans.
    fn logic(left: Type, right: Type) -> Option<Type>
        ensures { result ≡ option_of (logic_type left right) }
    {
        match (left, right) {
            (Type::Boolean, Type::Boolean) => Some(Type::Boolean),
            _ => None,
        }
    }

    /// The type of a test of order: two fixed, two times or two intervals.
    fn order(left: Type, right: Type) -> Option<Type>
        ensures { result ≡ option_of (order_type left right) }
    {
        match (left, right) {
            (Type::Fixed(_, _), Type::Fixed(_, _))
            | (Type::Time(_), Type::Time(_))
            | (Type::Interval(_), Type::Interval(_)) => Some(Type::Boolean),
            _ => None,
        }
    }

    /// The type of a test of equality: two of one kind, or null with anything.
    fn equality(left: Type, right: Type) -> Option<Type>
        ensures { result ≡ option_of (equal_type left right) }
    {
        match (left, right) {
            (Type::Null, _)
            | (_, Type::Null)
            | (Type::Boolean, Type::Boolean)
            | (Type::Fixed(_, _), Type::Fixed(_, _))
            | (Type::Time(_), Type::Time(_))
            | (Type::Interval(_), Type::Interval(_))
            | (Type::Class, Type::Class) => Some(Type::Boolean),
            _ => None,
        }
    }

    /// The type of 1 to 4.
    fn arithmetic(op: u8, left: Type, right: Type) -> Option<Type>
        requires { (1 ≤ op) × (op ≤ 4) }
        ensures { result ≡ option_of (binop_type op left right) }
    {
        match op {
            1..=2 => Type::sum(left, right),
            _ => Type::product(left, right),
        }
    }

    /// The type of 7 to 12.
    fn test(op: u8, left: Type, right: Type) -> Option<Type>
        requires { (7 ≤ op) × (op ≤ 12) }
        ensures { result ≡ option_of (binop_type op left right) }
    {
        match op {
            9..=10 => Type::equality(left, right),
            _ => Type::order(left, right),
        }
    }

    // Stays: one decision over the operators' numbers, in three ranges, a form that docs/DECISIONS.md names under Forms; so the numbers go on to the two functions above.
    /// The type of an operator over two types, where it has one.
    pub fn binop(op: u8, left: Type, right: Type) -> Option<Type>
        ensures { result ≡ option_of (binop_type op left right) }
    {
        match op {
            1..=4 => Type::arithmetic(op, left, right),
            5..=6 => Type::logic(left, right),
            7..=12 => Type::test(op, left, right),
            _ => None,
        }
    }

    /// The type of IF over its limbs' types: equal types, or two fixed to the larger digits and scale; else none.
    pub fn limb(left: Type, right: Type) -> Option<Type>
        ensures { result ≡ option_of (limb_type left right) }
    {
        match (left, right) {
            (Type::Fixed(_, _), Type::Fixed(_, _)) => Some(left.wider(right)),
            _ => if left == right { Some(left) } else { None },
        }
    }
}
