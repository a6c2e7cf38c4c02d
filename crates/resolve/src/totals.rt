// The types of EXISTS and COUNT, and of VALUE, MAX and MIN over a value's type.
// Every function is total.
ghost use Rattle.std.specs.Prelude.{◌≡◌};
ghost use Rattle.cell.specs.Res.{option_of};
ghost use Rattle.resolve.specs.Totals.{fold_type, pick_type};

/// The type of EXISTS, and of COUNT.
#[tactic(auto, unfolding(crate::specs::Totals::fold_type))]
pub fn fold_type(f: view::Fold) -> cell::Type
    ensures { result ≡ fold_type f }
{
    match f {
        view::Fold::Any => cell::Type::Boolean,
        view::Fold::Count(p) => cell::Type::Fixed(p, 0),
    }
}

/// The type of VALUE, MAX and MIN over a value's type: MAX and MIN have one where it has an order.
#[tactic(auto, unfolding(crate::specs::Totals::pick_type, crate::specs::Totals::ordered_type, cell::specs::Res::option_of, cell::specs::Types::kind_of))]
pub fn pick_type(g: view::Pick, t: cell::Type) -> Option<cell::Type>
    ensures { result ≡ option_of (pick_type g t) }
{
    match g {
        view::Pick::Only => Some(t),
        view::Pick::Greatest | view::Pick::Least => { matches!(t.kind(), 2..=4).then_some(t) }
    }
}
