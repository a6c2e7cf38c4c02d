// The lines of a text, the numbers and the files that they name, and numbers, spaces and line ends on a writer.
// The definitions are in specs/: Text says what a line and a number are, Counts how many bytes came, Shown what is printed of a refusal.
//
// A read that fails counts as the end of its input. A write that fails is the only error that a function here answers: the
// writer's own, passed on. What was written before it stays written, and of the writer no more is said, as `std` says no more.
#![tactic(auto)]

ghost use Rattle.std.specs.Prelude.{◌≡◌, ◌+◌, ◌-◌, ◌*◌, ◌≤◌, ◌<◌, length, replicate, OnOk};
ghost use Rattle.std.specs.Fmt.{signed_decimal};
ghost use Rattle.std.specs.Io.KnownBytes.{Appends};
ghost use Rattle.word.specs.Bytes.{signed32};
ghost use Rattle.lines.specs.Counts.{IsPrefixLen};
ghost use Rattle.lines.specs.Shown.{refusal_line};
ghost use Rattle.lines.specs.Text.{line_end, line_start, line_close, line_text, number_of, Within};

use std::io::{self, Read, Write};
use std::rt::Files;
use std::{fs, str};
use word::Refusal;

/// Where a line stands in a text: from start to end, without its line end.
#[derive(Clone, Copy, PartialEq, Eq, Debug)]
pub struct Line {
    pub start: usize,
    pub end: usize,
}

// The first line end at a place or after it; the end of the text where there is none.
#[tactic(auto, unfolding(crate::specs::Text::line_end))]
fn line_end(text: &[u8], at: usize) -> usize
    requires { at ≤ length text.now }
    ensures value { result ≡ line_end text.now at }
    ensures after { at ≤ result }
    ensures inside { result ≤ length text.now }
{
    match text[at..].iter().position(|&byte| byte == b'\n') {
        Some(before) => at + before,
        None => text.len(),
    }
}

// Where line number j starts, counted from 0; the end of the text where it has fewer lines.
fn line_start(text: &[u8], j: usize) -> usize
    ensures value { result ≡ line_start text.now j 0 }
    ensures inside { result ≤ length text.now }
{
    let mut at = 0;
    for _ in 0..j {
        at = text.len().min(line_end(text, at) + 1);
    }
    at
}

// The end of a line's text: a carriage return before the line end is no part of it.
#[tactic(auto, unfolding(crate::specs::Text::line_close))]
fn line_close(text: &[u8], start: usize, end: usize) -> usize
    requires ordered { start ≤ end }
    requires inside { end ≤ length text.now }
    ensures value { result ≡ line_close text.now start end }
    ensures after { start ≤ result }
    ensures before { result ≤ end }
{
    if start < end && text[end - 1] == b'\r' {
        end - 1
    } else {
        end
    }
}

/// Where line number j of a text stands, counted from 0; an empty one at the end of a text that has fewer lines.
#[tactic(auto, unfolding(crate::specs::Text::line_of))]
pub fn find_line(text: &[u8], j: usize) -> Line
    ensures { Within text.now j result }
{
    let start = line_start(text, j);
    let end = line_close(text, start, line_end(text, start));
    Line { start, end }
}

/// Line number j of a text, counted from 0, without its line end; an empty one where the text has fewer lines.
#[tactic(auto, unfolding(crate::specs::Text::line_text))]
pub fn line_text(text: &[u8], j: usize) -> &[u8]
    ensures { result.now ≡ line_text text.now j }
{
    let Line { start, end } = find_line(text, j);
    &text[start..end]
}

/// The number of 16 bits that a text says: digits alone, at least one, and at most 65,535.
pub fn read_number(s: &[u8]) -> Option<u16>
    ensures { result ≡ number_of s.now }
{
    if s.is_empty() {
        return None;
    }
    let mut value: u32 = 0;
    for &byte in s {
        if !byte.is_ascii_digit() {
            return None;
        }
        value = 10 * value + u32::from(byte - b'0');
        if value > 65535 {
            return None;
        }
    }
    Some(value as u16)
}

/// The number that line number j says.
pub fn number_on(text: &[u8], j: usize) -> Option<u16>
    ensures { result ≡ number_of (line_text text.now j) }
{
    read_number(line_text(text, j))
}

/// Zeros for a buffer. The clause gives its length, which lending it as a slice needs where it is over 65,536.
pub fn zeros<const N: usize>() -> [u8; N]
    ensures long { N ≡ length result }
    ensures zero { result ≡ replicate N 0 }
{
    [0; N]
}

/// Reads to the start of a buffer until it is full, the input ends or a read fails, and answers how many bytes came.
pub fn read_full<R: Read>(from: &mut R, buf: &mut [u8]) -> usize
    ensures count { IsPrefixLen result buf.new }
    ensures same_length { length buf.new ≡ length buf.old }
{
    // Stays: a loop over reads, which give as many bytes as they like: no index is counted, and no method of the library answers how many came before an error.
    let mut done: usize = 0;
    while done < buf.len() {
        match from.read(&mut buf[done..]) {
            Ok(0) => return done,
            Ok(n) => done += n,
            Err(_) => return done,
        }
    }
    done
}

// Reads the file of a name to the start of a buffer, as far as it fits, and answers how many bytes came; none from a file
// that can't be opened. A name that is no UTF-8 text can't be.
fn load<R: Files>(rt: &R, path: &[u8], buf: &mut [u8]) -> usize
    ensures count { IsPrefixLen result buf.new }
    ensures same_length { length buf.new ≡ length buf.old }
{
    let Ok(name) = str::from_utf8(path) else {
        return 0;
    };
    match fs::open(rt, name) {
        Ok(mut file) => read_full(&mut file, buf),
        Err(_) => 0,
    }
}

/// The same for the file that line number j names.
pub fn load_on<R: Files>(rt: &R, text: &[u8], j: usize, buf: &mut [u8]) -> usize
    ensures count { IsPrefixLen result buf.new }
    ensures same_length { length buf.new ≡ length buf.old }
{
    load(rt, line_text(text, j), buf)
}

/// Writes the signed number that 32 bits say.
pub fn print_signed<W: Write>(out: &mut W, n: u32) -> io::Result<()>
    ensures { OnOk result (Appends (W.contents out.old) (W.contents out.new) (signed_decimal (signed32 n))) }
{
    write!(out, "{}", word::to_signed(n))
}

/// Writes a refusal as a line: its number and its place.
pub fn print_refusal<W: Write>(out: &mut W, refusal: Refusal) -> io::Result<()>
    ensures { OnOk result (Appends (W.contents out.old) (W.contents out.new) (refusal_line refusal)) }
{
    writeln!(out, "{} {}", refusal.reason.number(), refusal.place)
}
