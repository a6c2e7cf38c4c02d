// Shows the tree of a view. Four lines of standard input: catalogue file, view file, k, q.
// It writes a line `kind op a b c` for each record of the tree, or the refusal's number and place.
//
// A file that can't be opened counts as one of no bytes, so it is refused as such: 21 0, 1 0. Of a file that is longer than
// any that is accepted, the bytes that fit the buffer are refused as the whole file is.
#![tactic(auto)]

ghost use Rattle.std.specs.Prelude.{◌-◌, ◌/◌, min, length, OnOk};
ghost use Rattle.std.specs.Io.KnownBytes.{Appends};
ghost use Rattle.showtree.specs.Shown.{record_line, record_lines};

use std::io::{self, Write};
use std::rt::Files;
use word::Record;

// Writes a record as a line.
fn print_record<W: Write>(to: &mut W, shown: Record) -> io::Result<()>
    ensures { OnOk result (Appends (W.contents to.old) (W.contents to.new) (record_line shown)) }
{
    let Record { kind, op, a, b, c } = shown;
    writeln!(to, "{kind} {op} {a} {b} {c}")
}

// Writes so many records of a tree, as far as it has them.
#[tactic(auto, unfolding(crate::specs::Shown::record_lines))]
fn records<W: Write>(to: &mut W, tree: &[u8], count: usize) -> io::Result<()>
    ensures { OnOk result (Appends (W.contents to.old) (W.contents to.new) (record_lines tree.now (min count (length tree.now / 8 - 1)))) }
{
    for i in 0..count.min((tree.len() / 8).saturating_sub(1)) {
        print_record(to, word::record_at(tree, i))?;
    }
    Ok(())
}

fn show<R: Files, W: Write>(rt: &R, to: &mut W, text: &[u8], k: u16, q: u16) -> io::Result<()> {
    let mut cat = [0u8; 65536];
    let mut view = [0u8; 65536];
    let mut tree = [0u8; 65536];
    let c = lines::load_on(rt, text, 0, &mut cat);
    let v = lines::load_on(rt, text, 1, &mut view);
    match filter::translate(&cat[..c], &view[..v], k, q, &mut tree) {
        Ok(count) => records(to, &tree, count),
        Err(refusal) => lines::print_refusal(to, refusal),
    }
}

fn run<R: Files, W: Write>(rt: &R, to: &mut W, text: &[u8]) -> io::Result<()> {
    match (lines::number_on(text, 2), lines::number_on(text, 3)) {
        (Some(k), Some(q)) => show(rt, to, text, k, q),
        _ => writeln!(
            to,
            "k and q: a number from 0 to 65535 each, on lines 3 and 4"
        ),
    }
}

fn main(rt: HostRuntime) -> io::Result<()> {
    let mut text = [0u8; 65536];
    let n = lines::read_full(&mut rt.reader(), &mut text);
    run(&rt, &mut io::writer(&rt), &text[..n])
}
