// The tree's records, read once into words: each says where its node's children stand, a TABLE's where its table's rows do.
// A word that is asked for past the last one is 0.
ghost use Rattle.std.specs.Prelude.{◌≡◌, ◌+◌, ◌*◌, ◌<◌, ◌≤◌, length, get_or};
ghost use Rattle.store.specs.Layout.{files_of};
ghost use Rattle.word.specs.Refusal.{fine};
ghost use Rattle.run.specs.Words.{kind_in, op_in, a_in, b_in, c_in, PartsAre, two, three, folds, picks, end_of, EndsAre, part_b, part_c, WordFor, LayIs, LaysAre, WordsAre};

use store::Span;

// The parts of a word.
pub fn kind_in(w: u64) -> u64
    ensures { result ≡ kind_in w }
{
    w % 256
}

pub fn op_in(w: u64) -> u8
    ensures { result ≡ op_in w }
{
    (w / 256 % 256) as u8
}

pub fn a_in(w: u64) -> usize
    ensures { (result ≡ a_in w) × (result < 65536) }
{
    (w / 65536 % 65536) as usize
}

pub fn b_in(w: u64) -> usize
    ensures { (result ≡ b_in w) × (result < 65536) }
{
    (w / 4294967296 % 65536) as usize
}

pub fn c_in(w: u64) -> usize
    ensures { (result ≡ c_in w) × (result < 65536) }
{
    (w / 281474976710656 % 65536) as usize
}

// The word of these parts.
fn word_of(kind: u8, op: u8, a: u16, b: u16, c: u16) -> u64
    ensures { PartsAre result kind op a b c }
{
    (kind as u64)
        + 256 * (op as u64)
        + 65536 * (a as u64)
        + 4294967296 * (b as u64)
        + 281474976710656 * (c as u64)
}

// Whether a kind has two children, or three.
fn has_two(kind: u8) -> bool
    ensures { result ≡ two kind }
{
    (kind == 7) | ((kind == 23) | ((kind == 25) | (kind == 26)))
}

fn has_three(kind: u8) -> bool
    ensures { result ≡ three kind }
{
    (kind == 9) | (kind == 24)
}

// Whether a kind is that of a block with one tree after its tables, or with two.
fn is_fold(kind: u8) -> bool
    ensures { result ≡ folds kind }
{
    (kind == 10) | ((kind == 27) | (kind == 28))
}

fn is_pick(kind: u8) -> bool
    ensures { result ≡ picks kind }
{
    (kind == 11) | ((kind == 29) | (kind == 30))
}

pub fn end_at(ends: &[u16; 8192], i: usize) -> u16
    requires { length ends.now ≡ 8192 }
    ensures { result ≡ get_or ends.now i 0 }
{
    ends.get(i).copied().unwrap_or(0)
}

// The end of the tree that stands where the tree at record i ends.
fn second_end(ends: &[u16; 8192], i: usize) -> u16
    requires { length ends.now ≡ 8192 }
    ensures { result ≡ get_or ends.now (get_or ends.now i 0) 0 }
{
    end_at(ends, usize::from(end_at(ends, i)))
}

// The end of the tree at record i, by the ends of the trees after it.
fn end_of(code: &[u8], ends: &[u16; 8192], i: usize) -> u16
    requires { (8 + 8 * i + 8 ≤ length code.now) × (i < 8190) × (length ends.now ≡ 8192) }
    ensures { result ≡ end_of code.now ends.now i }
{
    let kind = word::kind_at(code, i);
    let next = i + 1;
    if has_two(kind) {
        return second_end(ends, next);
    }
    if has_three(kind) {
        return end_at(ends, usize::from(second_end(ends, next)));
    }
    if (kind == 8) | (kind == 22) {
        return end_at(ends, next);
    }
    let body = next + usize::from(word::a_at(code, i));
    if is_fold(kind) {
        return end_at(ends, body);
    }
    if is_pick(kind) {
        return second_end(ends, body);
    }
    next as u16
}

// The end of each tree, from the last of n records to the first, into `ends`: it is lent, since an array that is handed out may be made in one place and copied to another.
pub fn ends_of(code: &[u8], n: usize, ends: &mut [u16; 8192])
    requires inside { (8 + 8 * n ≤ length code.now) × (n ≤ 8190) }
    requires long { length ends.old ≡ 8192 }
    ensures { EndsAre code.now n ends.new }
{
    for i in (0..n).rev() {
        let end = end_of(code, ends, i);
        ends[i] = end;
    }
}

// Where the second child of record i stands.
fn part_b(code: &[u8], ends: &[u16; 8192], i: usize) -> u16
    requires { (8 + 8 * i + 8 ≤ length code.now) × (i < 8190) × (length ends.now ≡ 8192) }
    ensures { result ≡ part_b code.now ends.now i }
{
    let kind = word::kind_at(code, i);
    let next = i + 1;
    if has_two(kind) | has_three(kind) {
        return end_at(ends, next);
    }
    if is_pick(kind) {
        return end_at(ends, next + usize::from(word::a_at(code, i)));
    }
    word::b_at(code, i)
}

// Where its third child stands.
fn part_c(code: &[u8], ends: &[u16; 8192], i: usize) -> u16
    requires { (8 + 8 * i + 8 ≤ length code.now) × (i < 8190) × (length ends.now ≡ 8192) }
    ensures { result ≡ part_c code.now ends.now i }
{
    if has_three(word::kind_at(code, i)) {
        return second_end(ends, i + 1);
    }
    word::c_at(code, i)
}

fn lay_at(lays: &[u64; 32], j: usize) -> u64
    requires { length lays.now ≡ 32 }
    ensures { result ≡ get_or lays.now j 0 }
{
    lays.get(j).copied().unwrap_or(0)
}

// The word of record i.
fn word_at(code: &[u8], ends: &[u16; 8192], lays: &[u64; 32], i: usize) -> u64
    requires { (8 + 8 * i + 8 ≤ length code.now) × (i < 8190) × (length ends.now ≡ 8192) × (length lays.now ≡ 32) }
    ensures { WordFor code.now ends.now lays.now i result }
{
    let kind = word::kind_at(code, i);
    let op = word::op_at(code, i);
    let a = word::a_at(code, i);
    if kind == 12 {
        return lay_at(lays, usize::from(a));
    }
    let b = part_b(code, ends, i);
    let c = part_c(code, ends, i);
    word_of(kind, op, a, b, c)
}

// The words of n records, into `words`, lent as `ends` is to `ends_of`.
pub fn words_of(
    code: &[u8],
    n: usize,
    ends: &[u16; 8192],
    lays: &[u64; 32],
    words: &mut [u64; 8192],
)
    requires inside { (8 + 8 * n ≤ length code.now) × (n ≤ 8190) × (length ends.now ≡ 8192) × (length lays.now ≡ 32) }
    requires long { length words.old ≡ 8192 }
    ensures { WordsAre code.now n ends.now lays.now words.new }
{
    for i in 0..n {
        words[i] = word_at(code, ends, lays, i);
    }
}

// The word of a table, by where its rows stand.
fn lay_of(span: Span, start: u16) -> u64
    ensures { LayIs result span.first start span.size span.rows }
{
    (span.first as u64)
        + 65536 * (start as u64)
        + 4294967296 * ((span.size / 8) as u64)
        + 281474976710656 * (span.rows as u64)
}

// The words of the tables of an accepted catalogue and store.
pub fn lays_of(cat: &[u8], store: &[u8]) -> [u64; 32]
    requires { files_of cat.now store.now ≡ fine tt }
    ensures { LaysAre cat.now store.now result }
{
    let n = usize::from(word::u16_at(cat, 6));
    let tables = usize::from(word::u16_at(store, 6));
    let spans = store::table_spans(cat, n, store);
    let starts = catalogue::starts(cat, n);
    let mut lays = [0u64; 32];
    for j in 0..tables {
        lays[j] = lay_of(spans[j], starts[j]);
    }
    lays
}
