// Cases on an input: a case's opening and its bytes, the fill of a lent buffer and its digest.
// The definitions are in specs/: Opening says what stands where, Digest what a buffer is filled with and comes to.
#![tactic(auto)]

ghost use Rattle.std.specs.Prelude.{◌≡◌, ◌+◌, ◌*◌, ◌%◌, ◌≤◌, ◌<◌, length};
ghost use Rattle.lines.specs.Counts.{IsPrefixLen};
ghost use Rattle.cases.specs.Opening.{opening_of};
ghost use Rattle.cases.specs.Digest.{digest_of, pattern};

use std::io::Read;

/// A case: the job, 1 Translate, 2 Answer; k and q; the lengths of the lent buffers and of the three files.
#[derive(Clone, Copy, PartialEq, Eq, Debug)]
pub struct Case {
    // Stays: the input's number, any number at all: an enum would have a case for all others, which the two programs take unlike.
    pub job: u16,
    pub k: u16,
    pub q: u16,
    pub tree: usize,
    pub answer: usize,
    pub cat: usize,
    pub view: usize,
    pub store: usize,
}

/// The files of a case, as far as they came.
#[derive(Clone, Copy)]
pub struct Files<'a> {
    pub cat: &'a [u8],
    pub view: &'a [u8],
    pub store: &'a [u8],
}

/// The case that 26 bytes open; with fewer the cases are at their end.
#[tactic(auto, unfolding(crate::specs::Opening::case_of, crate::specs::Opening::opening_of))]
pub fn opening_of(head: &[u8]) -> Option<Case>
    ensures { result ≡ opening_of head.now }
{
    if head.len() < 26 {
        return None;
    }
    Some(Case {
        job: word::u16_at(head, 0),
        k: word::u16_at(head, 2),
        q: word::u16_at(head, 4),
        tree: word::u32_at(head, 6) as usize,
        answer: word::u32_at(head, 10) as usize,
        cat: word::u32_at(head, 14) as usize,
        view: word::u32_at(head, 18) as usize,
        store: word::u32_at(head, 22) as usize,
    })
}

/// Reads n bytes of an input to the start of a buffer, and answers how many came; none where the buffer is shorter.
pub fn load<R: Read>(from: &mut R, buf: &mut [u8], n: usize) -> usize
    ensures count { IsPrefixLen result buf.new }
    ensures same_length { length buf.new ≡ length buf.old }
{
    if n <= buf.len() {
        lines::read_full(from, &mut buf[..n])
    } else {
        0
    }
}

/// The digest of a buffer.
#[tactic(auto, unfolding(crate::specs::Digest::digest_of))]
pub fn digest(s: &[u8]) -> u64
    ensures { result ≡ digest_of s.now }
{
    let mut digest: u64 = 1;
    for &byte in s {
        digest = (256 * digest + u64::from(byte)) % 36028797018963913;
    }
    digest
}

/// Fills a buffer with the pattern.
pub fn fill(buf: &mut [u8])
    ensures { buf.new ≡ pattern (length buf.old) }
{
    for (i, byte) in buf.iter_mut().enumerate() {
        *byte = (i % 251) as u8;
    }
}
