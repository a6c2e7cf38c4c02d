// The open scopes in 64 words, four to a scope: the leaves of a tree look up rows, cells and locals in them.
// A scope is opened in a copy.
// Stays: words, of which the top bit tells a local; places of an enum, sixteen bytes each, proved, and EXISTS inside a view took 1.2 times as long.
ghost use Rattle.std.specs.Prelude.{◌≡◌, ◌+◌, ◌*◌, ◌%◌, ◌<◌, ◌≤◌, length, set};
ghost use Rattle.packed.specs.Packed.{meaning};
ghost use Rattle.packed.specs.Constants.{const_meaning};
ghost use Rattle.run.specs.Words.{kind_in, op_in, a_in, b_in, c_in, place_in};
ghost use Rattle.run.specs.Env.{slot_of, row_of, Scoped, LeafRight, SlotReady, DataRight, CellClassRight, RowClassRight, LocalRight, LocalClassRight};

use crate::words::{a_in, b_in, c_in, kind_in, op_in};
use packed::Outcome;

// Word b of the scope a scopes outward; 0 where there is none.
fn slot(env: &[u64; 64], d: usize, a: usize, b: usize) -> u64
    requires { d ≤ 16 }
    ensures { result ≡ slot_of env.now d a b }
{
    if a < d {
        if b < 4 {
            return env[4 * (d - 1 - a) + b];
        }
        return 0;
    }
    0
}

// The word of a row; 0 where there is none.
fn row_word(env: &[u64; 64], d: usize, a: usize, b: usize) -> u64
    requires { d ≤ 16 }
    ensures { result ≡ row_of env.now d a b }
{
    let w = slot(env, d, a, b);
    if w < 9223372036854775808 { w } else { 0 }
}

// DATA: the value of cell k of a row.
fn data(cat: &[u8], store: &[u8], w: u64, k: usize) -> Outcome
    requires { SlotReady cat.now store.now w }
    ensures { DataRight cat.now store.now w k result }
{
    if k < b_in(w) {
        let ty = word::c_at(cat, a_in(w) + 1 + k);
        let place = store::cell_place(place_in(w), k);
        return Outcome::cell(store, ty, place);
    }
    Outcome::stuck()
}

// CELLCLASS: the class of cell k of a row.
fn cell_class(cat: &[u8], store: &[u8], w: u64, k: usize) -> Outcome
    requires { SlotReady cat.now store.now w }
    ensures { CellClassRight cat.now store.now w k result }
{
    if k < b_in(w) {
        let place = store::cell_place(place_in(w), k);
        return Outcome::of_class(store::cell_class(store, place));
    }
    Outcome::stuck()
}

// ROWCLASS: the class of a row.
fn row_class(cat: &[u8], store: &[u8], w: u64) -> Outcome
    requires { SlotReady cat.now store.now w }
    ensures { RowClassRight cat.now store.now w result }
{
    if w == 0 {
        return Outcome::stuck();
    }
    Outcome::of_class(store::row_class(store, place_in(w)))
}

fn place_in(w: u64) -> usize
    ensures { (result ≡ place_in w) × (result < 65536) }
{
    (w % 65536) as usize
}

// LOCAL: the value of a local.
fn local(cat: &[u8], store: &[u8], env: &[u64; 64], d: usize, a: usize) -> Outcome
    requires { Scoped cat.now store.now env.now d }
    ensures { LocalRight cat.now store.now env.now d a result }
{
    let w = slot(env, d, a, 0);
    if w < 9223372036854775808 {
        return Outcome::stuck();
    }
    Outcome::of_word(w)
}

// LOCALCLASS: the class of a local, where BINDC gave one.
fn local_class(cat: &[u8], store: &[u8], env: &[u64; 64], d: usize, a: usize) -> Outcome
    requires { Scoped cat.now store.now env.now d }
    ensures { LocalClassRight cat.now store.now env.now d a result }
{
    let first = slot(env, d, a, 0);
    if first < 9223372036854775808 {
        return Outcome::stuck();
    }
    let w = slot(env, d, a, 1);
    if w == 0 {
        return Outcome::stuck();
    }
    Outcome::of_class((w % 65536) as u16)
}

// A constant, by its record's word.
fn constant(w: u64) -> Outcome
    ensures { meaning result ≡ const_meaning (kind_in w) (op_in w) (a_in w) (b_in w) (c_in w) }
{
    Outcome::constant(
        (w % 256) as u8,
        op_in(w),
        (w / 65536 % 65536) as u16,
        (w / 4294967296 % 65536) as u16,
        (w / 281474976710656 % 65536) as u16,
    )
}

// A leaf, by its record's word.
pub fn leaf(w: u64, cat: &[u8], store: &[u8], env: &[u64; 64], d: usize) -> Outcome
    requires { Scoped cat.now store.now env.now d }
    ensures { LeafRight cat.now store.now env.now d w result }
{
    let kind = kind_in(w);
    let a = a_in(w);
    match kind {
        17 => data(cat, store, row_word(env, d, a, b_in(w)), c_in(w)),
        18 => cell_class(cat, store, row_word(env, d, a, b_in(w)), c_in(w)),
        19 => row_class(cat, store, row_word(env, d, a, b_in(w))),
        20 => local(cat, store, env, d, a),
        21 => local_class(cat, store, env, d, a),
        _ => constant(w),
    }
}

// A scope with a local is opened: its value's word, and its class's or 0.
pub fn opened(env: &[u64; 64], d: usize, v: u64, class: u64) -> [u64; 64]
    requires { (d < 16) × (length env.now ≡ 64) }
    ensures { result ≡ set (set env.now (4 * d) (v % 8796093022208 + 9223372036854775808)) (4 * d + 1) class }
{
    let mut mine = *env;
    let at = 4 * d;
    mine[at] = v % 8796093022208 + 9223372036854775808;
    mine[at + 1] = class;
    mine
}
