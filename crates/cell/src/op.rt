// The operators and their numbers.
ghost use Rattle.std.specs.Prelude.{◌≡◌, ◌≤◌, ◌⊎◌, MatchResult};
ghost use Rattle.cell.specs.Op.{Names};

/// An operator on two values; its discriminant is its number.
#[derive(Clone, Copy, PartialEq, Eq, Debug)]
pub enum Op {
    Plus = 1,
    Minus = 2,
    Times = 3,
    Divide = 4,
    And = 5,
    Or = 6,
    Less = 7,
    LessOrEqual = 8,
    Equal = 9,
    NotEqual = 10,
    GreaterOrEqual = 11,
    Greater = 12,
}

/// A number that no operator has.
#[derive(Clone, Copy, PartialEq, Eq, Debug)]
pub struct NoOp(pub u8);

impl TryFrom<u8> for Op {
    type Error = NoOp;

    ghost try_from_gives = { Names };

    fn try_from(number: u8) -> Result<Self, NoOp> {
        match number {
            1 => Ok(Op::Plus),
            2 => Ok(Op::Minus),
            3 => Ok(Op::Times),
            4 => Ok(Op::Divide),
            5 => Ok(Op::And),
            6 => Ok(Op::Or),
            7 => Ok(Op::Less),
            8 => Ok(Op::LessOrEqual),
            9 => Ok(Op::Equal),
            10 => Ok(Op::NotEqual),
            11 => Ok(Op::GreaterOrEqual),
            12 => Ok(Op::Greater),
            _ => Err(NoOp(number)),
        }
    }
}
