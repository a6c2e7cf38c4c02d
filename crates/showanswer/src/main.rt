// Shows the answer of a view over a store. Five lines of standard input: catalogue file, view file, k, q, store file.
// It writes a line for each row, its cells as `mark class value` with two spaces between them, or the refusal's number and place.
//
// A file that can't be opened counts as one of no bytes, so it is refused as such: 21 0, 31 0, 1 0. Of a file that is longer
// than any that is accepted, the bytes that fit the buffer are refused as the whole file is. An answer over 1,048,576 bytes is 41 0.
#![tactic(auto)]

ghost use Rattle.std.specs.Prelude.{◌≡◌, ◌≤◌, ◌*◌, ◌/◌, min, max, length, drop, OnOk};
ghost use Rattle.std.specs.Io.KnownBytes.{Appends};
ghost use Rattle.showanswer.specs.Shown.{cell_text, row_line, row_lines};

use std::io::{self, Write};
use std::rt::Files;

// Writes a cell: its mark, its class and its value.
fn print_cell<W: Write>(to: &mut W, cell: &[u8]) -> io::Result<()>
    requires { 8 ≤ length cell.now }
    ensures { OnOk result (Appends (W.contents to.old) (W.contents to.new) (cell_text cell.now)) }
{
    write!(to, "{} {} ", cell[0], word::u16_at(cell, 2))?;
    lines::print_signed(to, word::u32_at(cell, 4))
}

// Writes the cells of a row, eight bytes each, two spaces between them.
#[tactic(auto, unfolding(crate::specs::Shown::cell_texts))]
fn row<W: Write>(to: &mut W, cells: &[u8]) -> io::Result<()>
    ensures { OnOk result (Appends (W.contents to.old) (W.contents to.new) (row_line cells.now)) }
{
    for (j, cell) in cells.chunks_exact(8).enumerate() {
        if j > 0 {
            to.write_all(b"  ")?;
        }
        print_cell(to, cell)?;
    }
    writeln!(to)
}

// Writes so many rows of an answer, as far as it has them; a row has a cell at least.
#[tactic(auto, unfolding(crate::specs::Shown::row_lines))]
fn rows<W: Write>(to: &mut W, out: &[u8], count: usize, columns: u16) -> io::Result<()>
    ensures { let size = 8 * max columns 1 in
        let cells = drop 8 out.now in
        OnOk result (Appends (W.contents to.old) (W.contents to.new) (row_lines size cells (min count (length cells / size)))) }
{
    let Some(cells) = out.get(8..) else {
        return Ok(());
    };
    for cells in cells
        .chunks_exact(8 * usize::from(columns.max(1)))
        .take(count)
    {
        row(to, cells)?;
    }
    Ok(())
}

fn show<R: Files, W: Write>(rt: &R, to: &mut W, text: &[u8], k: u16, q: u16) -> io::Result<()> {
    let mut cat = [0u8; 65536];
    let mut view = [0u8; 65536];
    let mut store = [0u8; 65536];
    let mut tree = [0u8; 65536];
    let mut out: [u8; 1048576] = lines::zeros();
    let c = lines::load_on(rt, text, 0, &mut cat);
    let v = lines::load_on(rt, text, 1, &mut view);
    let s = lines::load_on(rt, text, 4, &mut store);
    let result = filter::answer(
        &cat[..c],
        &view[..v],
        k,
        q,
        &mut tree,
        &store[..s],
        &mut out,
    );
    match result {
        // The root of a tree says how many values it has.
        Ok(count) => rows(to, &out, count, word::record_at(&tree, 0).b),
        Err(refusal) => lines::print_refusal(to, refusal),
    }
}

fn run<R: Files, W: Write>(rt: &R, to: &mut W, text: &[u8]) -> io::Result<()> {
    match (lines::number_on(text, 2), lines::number_on(text, 3)) {
        (Some(k), Some(q)) => show(rt, to, text, k, q),
        _ => writeln!(
            to,
            "k and q: a number from 0 to 65535 each, on lines 3 and 4"
        ),
    }
}

fn main(rt: HostRuntime) -> io::Result<()> {
    let mut text = [0u8; 65536];
    let n = lines::read_full(&mut rt.reader(), &mut text);
    run(&rt, &mut io::writer(&rt), &text[..n])
}
