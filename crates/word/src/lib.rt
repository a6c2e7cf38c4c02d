// Numbers, records and headers in bytes, lowest byte first: read at a place, and written at a place of a lent buffer.
// A writer returns the place after what it wrote.
#![tactic(auto)]

ghost use Rattle.std.specs.Prelude.{◌≡◌, ◌+◌, ◌*◌, ◌≤◌, ◌<◌, length};
ghost use Rattle.word.specs.Bytes.{u16_at, u32_at, i32_at, signed32, bits32, le16, le32};
ghost use Rattle.word.specs.Buffer.{Wrote};
ghost use Rattle.word.specs.Record.{rec_at, kind_at, op_at, a_at, b_at, c_at, rec_bytes};
ghost use Rattle.word.specs.Header.{starts, headed, header};

/// A record of eight bytes: kind and op, then a, b, c, lowest byte first.
#[derive(Clone, Copy, PartialEq, Eq, Debug)]
pub struct Record {
    pub kind: u8,
    pub op: u8,
    pub a: u16,
    pub b: u16,
    pub c: u16,
}

impl Record {
    /// The eight bytes of a record.
    #[tactic(auto, unfolding(crate::specs::Record::rec_bytes))]
    pub fn bytes(self) -> [u8; 8]
        ensures { result ≡ rec_bytes self.kind self.op self.a self.b self.c }
    {
        let [a, b, c] = [
            self.a.to_le_bytes(),
            self.b.to_le_bytes(),
            self.c.to_le_bytes(),
        ];
        [self.kind, self.op, a[0], a[1], b[0], b[1], c[0], c[1]]
    }
}

mod refusal;
mod writer;

pub use refusal::{Reason, Refusal};
pub use writer::Writer;

/// The 16 bits at a place.
pub fn u16_at(b: &[u8], at: usize) -> u16
    requires { at + 2 ≤ length b.now }
    ensures { result ≡ u16_at b.now at }
{
    u16::from_le_bytes([b[at], b[at + 1]])
}

/// The 32 bits at a place.
pub fn u32_at(b: &[u8], at: usize) -> u32
    requires { at + 4 ≤ length b.now }
    ensures { result ≡ u32_at b.now at }
{
    u32::from_le_bytes([b[at], b[at + 1], b[at + 2], b[at + 3]])
}

/// The signed reading of 32 bits.
#[tactic(auto, using(crate::proofs::Laws::signed_is))]
pub fn to_signed(n: u32) -> i32
    ensures { result ≡ signed32 n }
{
    n.cast_signed()
}

/// The 32 bits of a signed number.
#[tactic(auto, using(crate::proofs::Laws::bits_are))]
pub fn to_bits(v: i32) -> u32
    ensures { result ≡ bits32 v }
{
    v.cast_unsigned()
}

/// The signed number at a place.
#[tactic(auto, unfolding(crate::specs::Bytes::i32_at))]
pub fn i32_at(b: &[u8], at: usize) -> i32
    requires { at + 4 ≤ length b.now }
    ensures { result ≡ i32_at b.now at }
{
    to_signed(u32_at(b, at))
}

/// Record i of a file: the eight bytes from place 8 + 8 i on.
#[tactic(auto, unfolding(crate::specs::Record::rec_at))]
pub fn record_at(bytes: &[u8], i: usize) -> Record
    requires { 8 + 8 * i + 8 ≤ length bytes.now }
    ensures { result ≡ rec_at bytes.now i }
{
    let at = 8 + 8 * i;
    Record {
        kind: bytes[at],
        op: bytes[at + 1],
        a: u16_at(bytes, at + 2),
        b: u16_at(bytes, at + 4),
        c: u16_at(bytes, at + 6),
    }
}

// Stays: these five read one field where a caller wants one, from any place of a file and without making the record.
/// The kind of record i.
pub fn kind_at(b: &[u8], i: usize) -> u8
    requires { 8 + 8 * i + 8 ≤ length b.now }
    ensures { result ≡ kind_at b.now i }
{
    b[8 + 8 * i]
}

/// The op of record i.
pub fn op_at(b: &[u8], i: usize) -> u8
    requires { 8 + 8 * i + 8 ≤ length b.now }
    ensures { result ≡ op_at b.now i }
{
    b[8 + 8 * i + 1]
}

/// The field a of record i.
pub fn a_at(b: &[u8], i: usize) -> u16
    requires { 8 + 8 * i + 8 ≤ length b.now }
    ensures { result ≡ a_at b.now i }
{
    u16_at(b, 8 + 8 * i + 2)
}

/// The field b of record i.
pub fn b_at(b: &[u8], i: usize) -> u16
    requires { 8 + 8 * i + 8 ≤ length b.now }
    ensures { result ≡ b_at b.now i }
{
    u16_at(b, 8 + 8 * i + 4)
}

/// The field c of record i.
pub fn c_at(b: &[u8], i: usize) -> u16
    requires { 8 + 8 * i + 8 ≤ length b.now }
    ensures { result ≡ c_at b.now i }
{
    u16_at(b, 8 + 8 * i + 6)
}

/// Bytes at a place of a buffer; the place after them.
#[tactic(auto, using(crate::proofs::Writing::wrote_part))]
fn put_bytes(out: &mut [u8], at: usize, bytes: &[u8]) -> usize
    requires { at + length bytes.now ≤ length out.old }
    ensures { Wrote out.old at bytes.now out.new result }
{
    out[at..at + bytes.len()].copy_from_slice(bytes);
    at + bytes.len()
}

/// 16 bits at a place of a buffer; the place after them.
#[tactic(auto, unfolding(crate::specs::Bytes::le16))]
pub fn put_u16(out: &mut [u8], at: usize, v: u16) -> usize
    requires { at + 2 ≤ length out.old }
    ensures { Wrote out.old at (le16 v) out.new result }
{
    put_bytes(out, at, &v.to_le_bytes())
}

/// A signed number at a place of a buffer; the place after it.
#[tactic(auto, unfolding(crate::specs::Bytes::le32))]
pub fn put_i32(out: &mut [u8], at: usize, v: i32) -> usize
    requires { at + 4 ≤ length out.old }
    ensures { Wrote out.old at (le32 (bits32 v)) out.new result }
{
    put_bytes(out, at, &to_bits(v).to_le_bytes())
}

/// A record at a place of a buffer; the place after it.
#[tactic(auto, unfolding(crate::specs::Record::rec_bytes))]
pub fn put_record(out: &mut [u8], at: usize, value: Record) -> usize
    requires { at + 8 ≤ length out.old }
    ensures { Wrote out.old at (rec_bytes value.kind value.op value.a value.b value.c) out.new result }
{
    put_bytes(out, at, &value.bytes())
}

/// Whether a file opens with a header: eight bytes at least, the mark, version 1.
#[tactic(auto, using(crate::proofs::Laws::starts_is), unfolding(crate::specs::Header::headed))]
pub fn opens(b: &[u8], mark: &[u8]) -> bool
    ensures { result ≡ headed mark.now b.now }
{
    b.len() >= 8 && b.starts_with(mark) && u16_at(b, 4) == 1
}

// A header at a place of a buffer; the place after it.
#[tactic(auto, unfolding(crate::specs::Bytes::le16))]
fn header_at(out: &mut [u8], at: usize, mark: &[u8], n: u16) -> usize
    requires { (length mark.now ≡ 4) × (at + 8 ≤ length out.old) }
    ensures { Wrote out.old at (header mark.now n) out.new result }
{
    let version = put_bytes(out, at, mark);
    let count = put_u16(out, version, 1);
    put_u16(out, count, n)
}

/// A header at the start of a buffer: the mark, version 1, the count; the place after it.
pub fn put_header(out: &mut [u8], mark: &[u8], n: u16) -> usize
    requires { (length mark.now ≡ 4) × (8 ≤ length out.old) }
    ensures { Wrote out.old 0 (header mark.now n) out.new result }
{
    header_at(out, 0, mark, n)
}
