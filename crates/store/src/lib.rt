// The check of a store over a catalogue, for any bytes, and where a row and a cell stand.
// The definitions are in specs/: Layout has the check, Rows what a store says.
#![tactic(auto)]

ghost use Rattle.std.specs.Prelude.{◌≡◌, ◌+◌, ◌-◌, ◌*◌, ◌/◌, ◌%◌, ◌^◌, ◌≤◌, ◌<◌, length, get_or};
ghost use Rattle.word.specs.Bytes.{u16_at};
ghost use Rattle.word.specs.Record.{kind_at, op_at, b_at, c_at};
ghost use Rattle.class.specs.Info.{info_by};
ghost use Rattle.word.specs.Refusal.{said};
ghost use Rattle.store.specs.Layout.{class_rule, value_rule, cell_rule, cell_place, columns_from, row_size, place_after, place_of, end_from, cells_fault, row_fault, rows_fault, table_fault, fault_from, verdict_by, check_of, files_of};

mod places;

pub use places::{Span, cell_bits, cell_class, cell_null, cell_value, row_class, table_spans};
use word::{Reason, Refusal};

// Stays: `byte` and `half`, readers of this crate's own; `check_over`, `row_size` and `table_spans` promise an answer for a catalogue of any bytes, and a byte past the end counts as 0.

// Stays: a table of powers of ten; a `match` as crate cell has it proved, and with it the check of a full store took 1.17 times as long.
const TENS: [u64; 16] = [
    1,
    10,
    100,
    1_000,
    10_000,
    100_000,
    1_000_000,
    10_000_000,
    100_000_000,
    1_000_000_000,
    10_000_000_000,
    100_000_000_000,
    1_000_000_000_000,
    10_000_000_000_000,
    100_000_000_000_000,
    1_000_000_000_000_000,
];

// A power of ten.
fn ten(n: u8) -> u64
    requires { n < 16 }
    ensures { result ≡ 10 ^ n }
{
    TENS[usize::from(n)]
}

// A byte; past the end it counts as 0.
fn byte(bytes: &[u8], at: usize) -> u8
    ensures { result ≡ get_or bytes.now at 0 }
{
    bytes.get(at).copied().unwrap_or(0)
}

// The 16 bits at a place; a byte past the end counts as 0.
#[tactic(auto, using(crate::proofs::Laws::byte_past))]
fn half(bytes: &[u8], at: usize) -> u16
    requires { at + 1 < 2 ^ 64 }
    ensures { result ≡ u16_at bytes.now at }
{
    if at + 1 < bytes.len() {
        word::u16_at(bytes, at)
    } else {
        u16::from(byte(bytes, at))
    }
}

// Stays: a record's fields one by one; a whole `Record` for each cell proved, and the check of a full store took 2.3 to 2.9 times as long.
// The kind of record i.
fn kind(cat: &[u8], i: usize) -> u8
    requires { i < 2080 }
    ensures { result ≡ kind_at cat.now i }
{
    byte(cat, 8 + 8 * i)
}

// The word of the type of column record i.
fn type_word(cat: &[u8], i: usize) -> u16
    requires { i < 2080 }
    ensures { result ≡ c_at cat.now i }
{
    half(cat, 8 + 8 * i + 6)
}

// What record i says of the class of its rows or cells.
fn info(cat: &[u8], i: usize) -> class::Info
    requires { i < 2080 }
    ensures { result ≡ info_by (op_at cat.now i) (b_at cat.now i) }
{
    class::Info::by_op(byte(cat, 8 + 8 * i + 1), half(cat, 8 + 8 * i + 4))
}

// Whether the bits of a value keep the rule of its type, which is given by its word, and of its null mark.
#[tactic(auto, using(crate::proofs::Laws::values))]
fn value_rule(ty: u16, mark: u8, bits: u32) -> bool
    ensures { result ≡ value_rule (ty / 256) (ty % 256) mark bits }
{
    if mark == 1 {
        return bits == 0;
    }
    match cell::type_by(ty) {
        cell::Type::Boolean => bits <= 1,
        cell::Type::Fixed(digits, _) => {
            u64::from(word::to_signed(bits).unsigned_abs()) < ten(digits)
        }
        cell::Type::Class => bits <= 65535,
        _ => true,
    }
}

/// Where the cell of column number j stands in the row at a place.
#[tactic(auto, unfolding(crate::specs::Layout::cell_place))]
pub fn cell_place(at: usize, j: usize) -> usize
    requires { at + 2 + 8 * j < 18446744073709551616 }
    ensures { result ≡ cell_place at j }
{
    at + 2 + 8 * j
}

// How many columns stand from record i on.
#[tactic(auto, using(crate::proofs::Laws::columns))]
fn columns_from(cat: &[u8], n: usize, i: usize) -> usize
    requires { (n ≤ 2080) × (i ≤ n) }
    ensures { (result ≡ columns_from cat.now (n - i) i) × (result ≤ 2080) }
{
    for k in i..n {
        if kind(cat, k) != 2 {
            return k - i;
        }
    }
    n - i
}

/// The bytes of a row of table record i.
#[tactic(auto, unfolding(crate::specs::Layout::row_size, crate::specs::Layout::cell_place))]
pub fn row_size(cat: &[u8], n: usize, i: usize) -> usize
    requires { (n ≤ 2080) × (i < n) }
    ensures { (result ≡ row_size cat.now n i) × (result ≤ 16642) }
{
    cell_place(0, columns_from(cat, n, i + 1))
}

// The refusal of a row class or a cell, at its first byte.
fn broken(place: usize) -> Refusal
    requires { place < 65536 }
    ensures reason { result.reason ≡ Reason.StoreRule }
    ensures place { result.place ≡ place }
{
    Refusal {
        reason: Reason::StoreRule,
        place: place as u16,
    }
}

// A store, laid out by a catalogue of n records.
#[derive(Clone, Copy)]
struct Layout<'a> {
    cat: &'a [u8],
    n: usize,
    store: &'a [u8],
    ghost few: { n ≤ 2080 },
}

impl<'a> Layout<'a> {
    // Whether the class at a place keeps what record i says.
    #[tactic(auto, unfolding(crate::specs::Layout::class_rule))]
    fn class_rule(&self, i: usize, at: usize) -> bool
        requires { (i < 2080) × (at + 2 ≤ length self.now.store.now) }
        ensures { result ≡ class_rule self.now.cat.now i self.now.store.now at }
    {
        info(self.cat, i).admits(word::u16_at(self.store, at))
    }

    // Whether the cell at a place keeps the rule of column record j.
    #[tactic(auto, unfolding(crate::specs::Layout::cell_rule))]
    fn cell_rule(&self, j: usize, at: usize) -> bool
        requires { (j < 2080) × (at + 8 ≤ length self.now.store.now) }
        ensures { result ≡ cell_rule self.now.cat.now j self.now.store.now at }
    {
        let mark = self.store[at];
        mark <= 1
            && self.store[at + 1] == 0
            && self.class_rule(j, at + 2)
            && value_rule(
                type_word(self.cat, j),
                mark,
                word::u32_at(self.store, at + 4),
            )
    }

    // The place behind record i's table: a table takes at most 2 + 65,536 · 16,642 = 1,090,650,114 bytes.
    #[tactic(auto, using(crate::proofs::Laws::all_few), unfolding(crate::specs::Layout::place_after))]
    fn place_after(&self, i: usize, at: usize) -> usize
        requires { (i < self.now.n) × (at ≤ 8 + 1090650114 * i) }
        ensures { (result ≡ place_after self.now.cat.now self.now.n self.now.store.now i at) × (result ≤ 8 + 1090650114 * (i + 1)) }
    {
        if kind(self.cat, i) == 1 {
            return at + 2 + usize::from(half(self.store, at)) * row_size(self.cat, self.n, i);
        }
        at
    }

    // The place behind the last table.
    #[tactic(auto, using(crate::proofs::Laws::ends))]
    fn end(&self) -> usize
        ensures { result ≡ end_from self.now.cat.now self.now.n self.now.store.now self.now.n 0 8 }
    {
        let mut at = 8;
        for i in 0..self.n {
            at = self.place_after(i, at);
        }
        at
    }

    // The first fault in the cells of the row at a place, whose columns stand from record i on.
    #[tactic(auto, using(crate::proofs::Laws::cells))]
    fn check_cells(&self, i: usize, at: usize) -> Result<(), Refusal>
        requires n_bound { i ≤ self.now.n }
        requires inside { cell_place at (columns_from self.now.cat.now (self.now.n - i) i) ≤ length self.now.store.now }
        requires short { length self.now.store.now ≤ 65528 }
        ensures { said result ≡ verdict_by (cells_fault self.now.cat.now self.now.store.now (self.now.n - i) i at 0) }
    {
        for k in i..self.n {
            if kind(self.cat, k) != 2 {
                return Ok(());
            }
            let place = cell_place(at, k - i);
            if !self.cell_rule(k, place) {
                return Err(broken(place));
            }
        }
        Ok(())
    }

    // The first fault in the row at a place, of table record i.
    #[tactic(auto, using(crate::proofs::Laws::rows))]
    fn check_row(&self, i: usize, at: usize) -> Result<(), Refusal>
        requires n_bound { (i < self.now.n) × (0 < at) }
        requires inside { at + row_size self.now.cat.now self.now.n i ≤ length self.now.store.now }
        requires short { length self.now.store.now ≤ 65528 }
        ensures { said result ≡ verdict_by (row_fault self.now.cat.now self.now.n self.now.store.now i at) }
    {
        if !self.class_rule(i, at) {
            return Err(broken(at));
        }
        self.check_cells(i + 1, at)
    }

    // The first fault in the rows of table record i, whose row count stands at a place.
    #[tactic(auto, using(crate::proofs::Laws::rows))]
    fn check_rows(&self, i: usize, at: usize) -> Result<(), Refusal>
        requires n_bound { i < self.now.n }
        requires inside { at + 2 + u16_at self.now.store.now at * row_size self.now.cat.now self.now.n i ≤ length self.now.store.now }
        requires short { length self.now.store.now ≤ 65528 }
        ensures { said result ≡ verdict_by (rows_fault self.now.cat.now self.now.n self.now.store.now i (u16_at self.now.store.now at) (at + 2) (row_size self.now.cat.now self.now.n i)) }
    {
        let rows = usize::from(word::u16_at(self.store, at));
        let size = row_size(self.cat, self.n, i);
        for r in 0..rows {
            self.check_row(i, at + 2 + r * size)?;
        }
        Ok(())
    }

    // The first fault in the tables of n records, all of which stand inside the store.
    #[tactic(auto, using(crate::proofs::Laws::faults), unfolding(crate::specs::Layout::table_fault))]
    fn check_tables(&self) -> Result<(), Refusal>
        requires ends { end_from self.now.cat.now self.now.n self.now.store.now self.now.n 0 8 ≡ length self.now.store.now }
        requires short { length self.now.store.now ≤ 65528 }
        ensures { said result ≡ verdict_by (fault_from self.now.cat.now self.now.n self.now.store.now self.now.n 0 8) }
    {
        let mut at = 8;
        for i in 0..self.n {
            if kind(self.cat, i) == 1 {
                self.check_rows(i, at)?;
            }
            at = self.place_after(i, at);
        }
        Ok(())
    }
}

/// The check of a store over a catalogue of n records with so many tables: a refusal of a row class or a cell has its first byte.
#[tactic(auto, using(word::proofs::Laws::headed_long), unfolding(crate::specs::Layout::check_of))]
pub fn check_over(cat: &[u8], n: usize, tables: usize, store: &[u8]) -> Result<(), Refusal>
    requires { n ≤ 2080 }
    ensures { said result ≡ check_of cat.now n tables store.now }
{
    if !word::opens(store, b"DRS\0") {
        return Err(Refusal {
            reason: Reason::StoreHeader,
            place: 0,
        });
    }
    let count = usize::from(word::u16_at(store, 6));
    let layout = Layout { cat, n, store };
    if 65528 < store.len() || count != tables || layout.end() != store.len() {
        return Err(Refusal {
            reason: Reason::StoreLength,
            place: 0,
        });
    }
    layout.check_tables()
}

/// The check of both files, for any bytes: first the catalogue, then the store over it.
#[tactic(auto, using(crate::proofs::Laws::count_few), unfolding(crate::specs::Layout::files_of))]
pub fn check(cat: &[u8], store: &[u8]) -> Result<(), Refusal>
    ensures { said result ≡ files_of cat.now store.now }
{
    let tables = catalogue::check(cat)?;
    check_over(cat, usize::from(half(cat, 6)), tables, store)
}
