// Why a job is refused, and where.
ghost use Rattle.std.specs.Prelude.{◌≡◌};
ghost use Rattle.word.specs.Refusal.{number_of};

/// Why a file is refused. A variant's value is the number that a caller of the C interface gets.
#[derive(Clone, Copy, PartialEq, Eq, Debug)]
pub enum Reason {
    ViewHeader = 1,
    ViewLength = 2,
    FieldOutOfRule = 3,
    WrongPlace = 4,
    TooDeep = 5,
    NoTable = 6,
    NoColumn = 7,
    Ambiguous = 8,
    WrongType = 9,
    TreeTooLarge = 10,
    CatalogueHeader = 21,
    CatalogueLength = 22,
    CatalogueRule = 23,
    NameUsed = 24,
    StoreHeader = 31,
    StoreLength = 32,
    StoreRule = 33,
    AnswerTooLarge = 41,
}

impl Reason {
    /// The number of a reason.
    pub fn number(self) -> u16
        ensures { result ≡ number_of self }
    {
        self as u16
    }
}

/// A reason, and the place: a record's number, or a byte's in a store.
#[derive(Clone, Copy, PartialEq, Eq, Debug)]
pub struct Refusal {
    pub reason: Reason,
    pub place: u16,
}
