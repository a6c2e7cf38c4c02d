// What is known of a value from what is known of its parts: one method for each kind of node. Sizes stop just above 8,190.
// Every function is total.
ghost use Rattle.std.specs.Prelude.{◌≡◌, ◌+◌, ◌<◌};
ghost use Rattle.word.specs.Refusal.{said};
ghost use Rattle.word.specs.declared.refusal.Reason.TheVariants as reason;
ghost use Rattle.resolve.specs.Sizes.{capped, bind_size, weighed, join_w, choice_w, let_w};
ghost use Rattle.resolve.specs.Steps.{class_of, stopped, known_by, leaf_k, two_k, not_k, brought_k, if_k, let_k, two_t, not_t, if_t, col_t, class_t};

use crate::{Known, Weighed};
use word::{Reason, Refusal};

/// One more than the records that a tree may have: here a size stops.
const ENOUGH: u16 = 8191;

/// The sum of two sizes.
pub fn plus(m: u16, n: u16) -> u16
    ensures { result ≡ capped (m + n) }
{
    m.saturating_add(n).min(ENOUGH)
}

/// How many records BIND or BINDC takes: m the value's class, d its data, n the body's class.
#[tactic(auto, unfolding(crate::specs::Sizes::bind_size))]
fn bind_size(info: class::Info, m: u16, d: u16, n: u16) -> u16
    ensures { result ≡ capped (bind_size info m d n) }
{
    let rest = plus(1, plus(d, n));
    match info {
        class::Info::Fixed(_) => rest,
        class::Info::Bound(_) => plus(m, rest),
    }
}

/// A type rule is broken at a record.
pub fn wrong_type(at: u16) -> Refusal
    ensures { result ≡ record { reason = reason.WrongType; place = at } }
{
    Refusal {
        reason: Reason::WrongType,
        place: at,
    }
}

impl Weighed {
    /// A class whose tree takes n records; one where it is fixed.
    #[tactic(auto, unfolding(crate::specs::Steps::stopped, crate::specs::Sizes::sized_i))]
    pub(crate) fn new(info: class::Info, n: u16) -> Self
        ensures { result ≡ stopped (weighed info n) }
    {
        let size = match info {
            class::Info::Fixed(_) => 1,
            class::Info::Bound(_) => n.min(ENOUGH),
        };
        Weighed { info, size }
    }

    /// LUB of both, or one fixed class.
    #[tactic(auto, using(crate::proofs::Leaves::sizes))]
    pub(crate) fn join(self, other: Self) -> Self
        ensures { result ≡ stopped (join_w self other) }
    {
        Weighed::new(
            self.info.join(other.info),
            plus(1, plus(self.size, other.size)),
        )
    }

    /// A choice under a data tree of d records.
    #[tactic(auto, using(crate::proofs::Leaves::sizes))]
    pub(crate) fn choose(self, d: u16, other: Self) -> Self
        ensures { result ≡ stopped (choice_w d self other) }
    {
        Weighed::new(
            self.info.choose(other.info),
            plus(1, plus(d, plus(self.size, other.size))),
        )
    }

    /// LET: this value's data takes d records, and its body's class is known.
    #[tactic(auto, using(crate::proofs::Leaves::sizes))]
    fn bind(self, d: u16, body: Self) -> Self
        ensures { result ≡ stopped (let_w d self body) }
    {
        Weighed::new(body.info, bind_size(self.info, self.size, d, body.size))
    }
}

impl Known {
    /// A value of a type, before a record, whose data takes n records, with its class.
    #[tactic(auto, unfolding(crate::specs::Steps::known_by))]
    pub(crate) fn new(ty: cell::Type, next: u16, n: u16, class: Weighed) -> Self
        ensures { result ≡ known_by ty next n class }
    {
        Known {
            ty,
            info: class.info,
            next,
            values: n.min(ENOUGH),
            classes: class.size.min(ENOUGH),
        }
    }

    /// A constant or a reference.
    #[tactic(auto, using(crate::proofs::Leaves::knowns))]
    pub(crate) fn leaf(ty: cell::Type, info: class::Info, next: u16) -> Self
        ensures { result ≡ leaf_k ty info next }
    {
        Known::new(ty, next, 1, Weighed::new(info, 1))
    }

    /// What is known of the value's class.
    #[tactic(auto, unfolding(crate::specs::Steps::class_of))]
    pub(crate) fn class(self) -> Weighed
        ensures { result ≡ class_of self }
    {
        Weighed {
            info: self.info,
            size: self.classes,
        }
    }

    /// A value of a type, made of this one and another.
    #[tactic(auto, using(crate::proofs::Leaves::knowns))]
    fn with(self, ty: cell::Type, right: Self) -> Self
        ensures { result ≡ two_k ty self right }
    {
        let values = plus(1, plus(self.values, right.values));
        Known::new(ty, right.next, values, self.class().join(right.class()))
    }

    /// BINOP at a record, of whose left operand this is known; 9 where it has no type.
    #[tactic(auto, using(cell::proofs::Options::options), unfolding(crate::specs::Steps::two_t, crate::specs::Steps::ruled_t))]
    pub(crate) fn binop(self, at: u16, op: u8, right: Self) -> Result<Self, Refusal>
        ensures { said result ≡ two_t at op self right }
    {
        let Some(ty) = cell::Type::binop(op, self.ty, right.ty) else {
            return Err(wrong_type(at));
        };
        Ok(self.with(ty, right))
    }

    /// The other truth value.
    #[tactic(auto, using(crate::proofs::Leaves::knowns))]
    fn negated(self) -> Self
        ensures { result ≡ not_k self }
    {
        Known::new(
            cell::Type::Boolean,
            self.next,
            plus(1, self.values),
            self.class(),
        )
    }

    /// NOT at a record; 9 where the operand isn't boolean.
    #[tactic(auto, using(cell::proofs::Equal::equal_types), unfolding(crate::specs::Steps::not_t, crate::specs::Steps::bool_t))]
    pub(crate) fn not(self, at: u16) -> Result<Self, Refusal>
        ensures { said result ≡ not_t at self }
    {
        if self.ty != cell::Type::Boolean {
            return Err(wrong_type(at));
        }
        Ok(self.negated())
    }

    /// A limb brought to a type: CONV where it has another.
    #[tactic(auto, using(crate::proofs::Leaves::knowns))]
    fn brought(self, ty: cell::Type) -> Self
        ensures { result ≡ brought_k ty self }
    {
        let values = if self.ty == ty {
            self.values
        } else {
            plus(1, self.values)
        };
        Known::new(ty, self.next, values, self.class())
    }

    /// IF of a type, of whose condition this is known, its limbs brought to the type.
    #[tactic(auto, using(crate::proofs::Leaves::knowns))]
    fn either(self, ty: cell::Type, yes: Self, no: Self) -> Self
        ensures { result ≡ if_k ty self yes no }
    {
        let values = plus(1, plus(self.values, plus(yes.values, no.values)));
        let choice = yes.class().choose(self.values, no.class());
        Known::new(ty, no.next, values, self.class().join(choice))
    }

    /// IF at a record, of whose condition this is known; 9 where that isn't boolean or the limbs have no type in common.
    #[tactic(auto, using(cell::proofs::Equal::equal_types, cell::proofs::Options::options), unfolding(crate::specs::Steps::if_t, crate::specs::Steps::bool_t, crate::specs::Steps::ruled_t))]
    pub(crate) fn branch(self, at: u16, yes: Self, no: Self) -> Result<Self, Refusal>
        ensures { said result ≡ if_t at self yes no }
    {
        if self.ty != cell::Type::Boolean {
            return Err(wrong_type(at));
        }
        let Some(ty) = cell::Type::limb(yes.ty, no.ty) else {
            return Err(wrong_type(at));
        };
        Ok(self.either(ty, yes.brought(ty), no.brought(ty)))
    }

    /// LET, of whose value this is known.
    #[tactic(auto, using(crate::proofs::Leaves::knowns))]
    pub(crate) fn bind(self, body: Self) -> Self
        ensures { result ≡ let_k self body }
    {
        let values = plus(1, plus(self.values, body.values));
        let class = self.class().bind(self.values, body.class());
        Known::new(body.ty, body.next, values, class)
    }
}

/// COL at a record, by what its name finds: 7 where it finds nothing, 8 where more than one.
#[tactic(auto, unfolding(crate::specs::Steps::col_t))]
pub fn column(at: u16, found: scope::Found) -> Result<Known, Refusal>
    requires { at < 65535 }
    ensures { said result ≡ col_t at found }
{
    match found {
        scope::Found::Column { ty, cell, .. } => Ok(Known::leaf(ty, cell, at + 1)),
        scope::Found::Local { ty, info, .. } => Ok(Known::leaf(ty, info, at + 1)),
        scope::Found::None => Err(Refusal {
            reason: Reason::NoColumn,
            place: at,
        }),
        scope::Found::Ambiguous => Err(Refusal {
            reason: Reason::Ambiguous,
            place: at,
        }),
    }
}

/// CLASSOF at a record: as COL, but a local counts as no column.
#[tactic(auto, unfolding(crate::specs::Steps::class_t))]
pub fn class_of(at: u16, found: scope::Found) -> Result<Known, Refusal>
    requires { at < 65535 }
    ensures { said result ≡ class_t at found }
{
    match found {
        scope::Found::Column { row, .. } => Ok(Known::leaf(cell::Type::Class, row, at + 1)),
        scope::Found::Local { .. } | scope::Found::None => Err(Refusal {
            reason: Reason::NoColumn,
            place: at,
        }),
        scope::Found::Ambiguous => Err(Refusal {
            reason: Reason::Ambiguous,
            place: at,
        }),
    }
}
