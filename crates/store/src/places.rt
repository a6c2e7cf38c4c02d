// Where the rows of each table stand, found once; then a row and a cell are read by their place.
// What is read by its place is not searched for.
ghost use Rattle.std.specs.Prelude.{◌≡◌, ◌+◌, ◌*◌, ◌≤◌, ◌<◌, length, get_or, eqb};
ghost use Rattle.word.specs.Bytes.{u16_at, u32_at, signed32};
ghost use Rattle.store.specs.Layout.{end_from};
ghost use Rattle.store.specs.Rows.{value_of, cell_at};
ghost use Rattle.store.specs.Spans.{spans_of};

use crate::{Layout, half, kind, row_size};

/// Where the rows of a table stand in a store: the place of the first row, how many there are, the bytes of each.
#[derive(Clone, Copy, PartialEq, Eq, Debug)]
pub struct Span {
    pub first: u16,
    pub rows: u16,
    pub size: u16,
}

impl Span {
    // What stands in an array after the last table.
    const BLANK: Span = Span {
        first: 0,
        rows: 0,
        size: 0,
    };
}

/// The spans of the tables among n records, in order, in an array for 32: blanks stand after them, and a 33rd is left out.
pub fn table_spans(cat: &[u8], n: usize, store: &[u8]) -> [Span; 32]
    requires { (n ≤ 2080) × (end_from cat.now n store.now n 0 8 ≤ 65528) }
    ensures { result ≡ spans_of cat.now n store.now }
{
    let layout = Layout { cat, n, store };
    let mut spans = [Span::BLANK; 32];
    let mut tables = 0;
    let mut at = 8;
    for i in 0..n {
        if kind(cat, i) == 1 {
            if tables < spans.len() {
                spans[tables] = Span {
                    first: (at + 2) as u16,
                    rows: half(store, at),
                    size: row_size(cat, n, i) as u16,
                };
            }
            tables += 1;
        }
        at = layout.place_after(i, at);
    }
    spans
}

/// The class of the row at a place.
pub fn row_class(store: &[u8], at: usize) -> u16
    requires { at + 2 ≤ length store.now }
    ensures { result ≡ u16_at store.now at }
{
    word::u16_at(store, at)
}

/// The class of the cell at a place.
pub fn cell_class(store: &[u8], place: usize) -> u16
    requires { place + 8 ≤ length store.now }
    ensures { result ≡ u16_at store.now (place + 2) }
{
    word::u16_at(store, place + 2)
}

/// Whether the cell at a place is null.
pub fn cell_null(store: &[u8], place: usize) -> bool
    requires { place + 8 ≤ length store.now }
    ensures { result ≡ eqb (get_or store.now place 0) 1 }
{
    store[place] == 1
}

/// The 32 bits of the value of the cell at a place.
pub fn cell_bits(store: &[u8], place: usize) -> u32
    requires { place + 8 ≤ length store.now }
    ensures { result ≡ u32_at store.now (place + 4) }
{
    word::u32_at(store, place + 4)
}

// The value of a type by its bits.
#[tactic(auto, using(word::proofs::Laws::bits_signed), unfolding(crate::specs::Rows::value_of))]
fn value_of(t: cell::Type, bits: u32) -> cell::Value
    ensures { result ≡ value_of t (signed32 bits) }
{
    let value = word::to_signed(bits);
    match t {
        cell::Type::Null => cell::Value::Null,
        cell::Type::Boolean => cell::Value::Truth(value.unsigned_abs() == 1),
        cell::Type::Fixed(_, scale) => cell::Value::Fixed(scale, value),
        cell::Type::Time(_) => cell::Value::Time(value),
        cell::Type::Interval(_) => cell::Value::Interval(value),
        cell::Type::Class => cell::Value::Class((bits % 65536) as u16),
    }
}

/// The value of the cell at a place, of its column's type.
#[tactic(auto, unfolding(crate::specs::Rows::cell_at, word::specs::Bytes::i32_at))]
pub fn cell_value(store: &[u8], t: cell::Type, place: usize) -> cell::Value
    requires { place + 8 ≤ length store.now }
    ensures { result ≡ (cell_at store.now t place).value }
{
    if cell_null(store, place) {
        return cell::Value::Null;
    }
    value_of(t, cell_bits(store, place))
}
