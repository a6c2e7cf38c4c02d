// Runs the checks on the cases of standard input, and writes the number and the place of each refusal; 0 0 where there is none.
// Order: catalogue, store (Answer only), view: its structure, then its names and types. It ends whatever the input is: the cases are counted.
#![tactic(auto)]

ghost use Rattle.std.specs.Prelude.{OnOk};
ghost use Rattle.std.specs.Io.KnownBytes.{Appends};
ghost use Rattle.refusals.specs.Shown.{found_line};

use cases::{Case, Files};
use resolve::Source;
use std::io::{self, Read, Write};
use word::Refusal;

// The refusal of a view over a catalogue, or of the catalogue: structure, then names and types.
fn of_view(cat: &[u8], view: &[u8], k: u16) -> Result<(), Refusal> {
    let tables = catalogue::check(cat)?;
    let n = view::check(view)?;
    let nc = usize::from(word::u16_at(cat, 6));
    let starts = catalogue::starts(cat, nc);
    let source = Source {
        cat,
        starts: &starts,
        view,
        files: resolve::Files { nc, tables, n, k },
    };
    let mut notes = [0u64; 1024];
    let mut ends = [0u64; 33];
    resolve::whole(&source, &mut notes, &mut ends)?;
    Ok(())
}

// The first refusal of a case's job: 1 Translate, 2 Answer.
fn first(case: Case, files: Files) -> Result<(), Refusal> {
    if case.job == 2 {
        store::check(files.cat, files.store)?;
    }
    of_view(files.cat, files.view, case.k)
}

// Writes the refusal of a case as a line, or 0 0.
fn show<W: Write>(to: &mut W, found: Result<(), Refusal>) -> io::Result<()>
    ensures { OnOk result (Appends (W.contents to.old) (W.contents to.new) (found_line found)) }
{
    match found {
        Ok(()) => writeln!(to, "0 0"),
        Err(refusal) => lines::print_refusal(to, refusal),
    }
}

// Reads the files of a case and shows its refusal.
fn run<R: Read, W: Write>(from: &mut R, to: &mut W, case: Case) -> io::Result<()> {
    let mut cat: [u8; 66000] = lines::zeros();
    let mut view: [u8; 66000] = lines::zeros();
    let mut store: [u8; 66000] = lines::zeros();
    let c = cases::load(from, &mut cat, case.cat);
    let v = cases::load(from, &mut view, case.view);
    let s = cases::load(from, &mut store, case.store);
    let files = Files {
        cat: &cat[..c],
        view: &view[..v],
        store: &store[..s],
    };
    show(to, first(case, files))
}

// One case; whether there was one.
fn turn<R: Read, W: Write>(from: &mut R, to: &mut W) -> io::Result<bool> {
    let mut head = [0u8; 26];
    let n = lines::read_full(from, &mut head);
    let Some(case) = cases::opening_of(&head[..n]) else {
        return Ok(false);
    };
    run(from, to, case)?;
    Ok(true)
}

fn main(rt: HostRuntime) -> io::Result<()> {
    let mut from = rt.reader();
    let mut to = io::writer(&rt);
    for _ in 0..100000 {
        if !turn(&mut from, &mut to)? {
            break;
        }
    }
    Ok(())
}
