// What is known of an accepted value, by the walk of names and types; what a name's finding tells.
// The value at a record is that of specs/Claims.
ghost use Rattle.std.specs.Prelude.{◌≡◌};
ghost use Rattle.tree.specs.Claims.{found_type, found_info, row_info};
ghost use Rattle.tree.specs.Levels.{AcceptedIn, ToldIn};

use crate::{Level, Part};

/// What is known of the accepted value at a record. What the pad holds afterwards isn't said.
pub fn known_at(level: &Level, at: usize, pad: &mut [u64; 1024]) -> Part
    requires { AcceptedIn level.now at }
    ensures { ToldIn level.now at result }
{
    let mut held = *level.scopes;
    let Ok(x) = resolve::value(level.source, at, level.depth, &mut held, level.deep, pad) else {
        return Part {
            ty: cell::Type::Null,
            info: class::Info::Fixed(0),
            next: at,
        };
    };
    Part {
        ty: x.ty,
        info: x.info,
        next: x.next as usize,
    }
}

// The type of what a name finds; null where it finds nothing, or more than one.
#[tactic(auto, unfolding(crate::specs::Claims::found_type))]
pub fn found_type(h: scope::Found) -> cell::Type
    ensures { result ≡ found_type h }
{
    match h {
        scope::Found::Column { ty, .. } => ty,
        scope::Found::Local { ty, .. } => ty,
        _ => cell::Type::Null,
    }
}

// What is known of the class of what a name finds; 0 where it finds nothing, or more than one.
#[tactic(auto, unfolding(crate::specs::Claims::found_info))]
pub fn found_info(h: scope::Found) -> class::Info
    ensures { result ≡ found_info h }
{
    match h {
        scope::Found::Column { cell, .. } => cell,
        scope::Found::Local { info, .. } => info,
        _ => class::Info::Fixed(0),
    }
}

// What is known of the class of the row where a name finds a column; 0 where it finds none, or more than one.
#[tactic(auto, unfolding(crate::specs::Claims::row_info))]
pub fn row_info(h: scope::Found) -> class::Info
    ensures { result ≡ row_info h }
{
    match h {
        scope::Found::Column { row, .. } => row,
        _ => class::Info::Fixed(0),
    }
}
