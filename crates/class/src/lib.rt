// Classes: a 16-bit word is a level (word div 4096) and twelve marks (the low twelve bits). What is known of a class before a row is read.
// Assumes nothing.
#![tactic(auto)]

ghost use Rattle.std.specs.Prelude.{◌≡◌};
ghost use Rattle.class.specs.Class.{dominatesb, lub_of};
ghost use Rattle.class.specs.Info.{info_by, bound_of, join_i, choice_i, info_test};

/// Whether a's level is at least b's and a has every mark of b.
#[tactic(auto, using(crate::proofs::Laws::test_high, crate::proofs::Laws::test_low), unfolding(crate::specs::Class::level))]
pub fn dominates(a: u16, b: u16) -> bool
    ensures { result ≡ dominatesb a b }
{
    b / 4096 <= a / 4096 && (a | b) % 4096 == a % 4096
}

/// The higher level, and the marks of either.
#[tactic(auto, using(crate::proofs::Laws::lub_or), unfolding(crate::specs::Class::level))]
pub fn lub(a: u16, b: u16) -> u16
    ensures { result ≡ lub_of a b }
{
    (a / 4096).max(b / 4096) * 4096 + (a | b) % 4096
}

/// What is known of a class before a row is read: it is fixed, or it has a bound that dominates it.
#[derive(Clone, Copy, PartialEq, Eq, Debug)]
pub enum Info {
    Fixed(u16),
    Bound(u16),
}

impl Info {
    /// Op 0 says that the class is fixed, any other that it is the bound.
    #[tactic(auto, unfolding(crate::specs::Info::info_by))]
    pub fn by_op(op: u8, class: u16) -> Self
        ensures { result ≡ info_by op class }
    {
        if op == 0 {
            Info::Fixed(class)
        } else {
            Info::Bound(class)
        }
    }

    /// The fixed class, or the bound.
    #[tactic(auto, unfolding(crate::specs::Info::bound_of))]
    pub fn bound(self) -> u16
        ensures { result ≡ bound_of self }
    {
        match self {
            Info::Fixed(class) | Info::Bound(class) => class,
        }
    }

    /// Fixed with fixed is fixed; all else has the lub of both as its bound.
    #[tactic(auto, unfolding(crate::specs::Info::join_i))]
    pub fn join(self, other: Self) -> Self
        ensures { result ≡ join_i self other }
    {
        match (self, other) {
            (Info::Fixed(a), Info::Fixed(b)) => Info::Fixed(lub(a, b)),
            (Info::Fixed(a) | Info::Bound(a), Info::Fixed(b) | Info::Bound(b)) => Info::Bound(lub(
                a, b,
            )),
        }
    }

    /// Fixed if both are fixed and equal; else their lub is the bound.
    #[tactic(auto, unfolding(crate::specs::Info::choice_i, crate::specs::Info::same_i, crate::specs::Info::bound_of))]
    pub fn choose(self, other: Self) -> Self
        ensures { result ≡ choice_i self other }
    {
        match (self, other) {
            (Info::Fixed(a), Info::Fixed(b)) if a == b => self,
            (Info::Fixed(a) | Info::Bound(a), Info::Fixed(b) | Info::Bound(b)) => Info::Bound(lub(
                a, b,
            )),
        }
    }

    /// Whether a class is the fixed one, or is dominated by the bound.
    #[tactic(auto, unfolding(crate::specs::Info::info_test))]
    pub fn admits(self, class: u16) -> bool
        ensures { result ≡ info_test self class }
    {
        match self {
            Info::Fixed(fixed) => class == fixed,
            Info::Bound(bound) => dominates(bound, class),
        }
    }
}
