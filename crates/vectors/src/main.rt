// Runs the two jobs on the cases of standard input. For each it writes number, place, count and the digests of both lent buffers,
// each filled with a pattern before. It ends whatever the input is: the cases are counted.
#![tactic(auto)]

ghost use Rattle.std.specs.Prelude.{OnOk};
ghost use Rattle.std.specs.Io.KnownBytes.{Appends};
ghost use Rattle.vectors.specs.Shown.{case_line};

use cases::{Case, Files};
use std::io::{self, Read, Write};
use word::Refusal;

// Writes what a job gave back, and the digests of the tree's and of the answer's buffer.
fn show<W: Write>(to: &mut W, given: Result<usize, Refusal>, tree: u64, out: u64) -> io::Result<()>
    ensures { OnOk result (Appends (W.contents to.old) (W.contents to.new) (case_line given tree out)) }
{
    let (number, place, count) = match given {
        Ok(count) => (0, 0, count),
        Err(refusal) => (refusal.reason.number(), refusal.place, 0),
    };
    writeln!(to, "{number} {place} {count} {tree:014x} {out:014x}")
}

// What a case's job gives back.
fn job(case: Case, files: Files, tree: &mut [u8], out: &mut [u8]) -> Result<usize, Refusal> {
    if case.job == 1 {
        filter::translate(files.cat, files.view, case.k, case.q, tree)
    } else {
        filter::answer(
            files.cat,
            files.view,
            case.k,
            case.q,
            tree,
            files.store,
            out,
        )
    }
}

// Runs a case over buffers of the lengths that it asks, filled before; nothing where they are longer than the buffers lent here.
fn cut<W: Write>(
    to: &mut W,
    case: Case,
    files: Files,
    tree: &mut [u8],
    out: &mut [u8],
) -> io::Result<()> {
    if case.tree > tree.len() || case.answer > out.len() {
        return Ok(());
    }
    let tree = &mut tree[..case.tree];
    let out = &mut out[..case.answer];
    cases::fill(tree);
    cases::fill(out);
    let given = job(case, files, tree, out);
    show(to, given, cases::digest(tree), cases::digest(out))
}

// Reads the files of a case and runs it.
fn run<R: Read, W: Write>(from: &mut R, to: &mut W, case: Case) -> io::Result<()> {
    let mut cat: [u8; 66000] = lines::zeros();
    let mut view: [u8; 66000] = lines::zeros();
    let mut store: [u8; 66000] = lines::zeros();
    let mut tree: [u8; 70000] = lines::zeros();
    let mut out: [u8; 70000] = lines::zeros();
    let c = cases::load(from, &mut cat, case.cat);
    let v = cases::load(from, &mut view, case.view);
    let s = cases::load(from, &mut store, case.store);
    let files = Files {
        cat: &cat[..c],
        view: &view[..v],
        store: &store[..s],
    };
    cut(to, case, files, &mut tree, &mut out)
}

// One case; whether there was one.
fn turn<R: Read, W: Write>(from: &mut R, to: &mut W) -> io::Result<bool> {
    let mut head = [0u8; 26];
    let n = lines::read_full(from, &mut head);
    let Some(case) = cases::opening_of(&head[..n]) else {
        return Ok(false);
    };
    run(from, to, case)?;
    Ok(true)
}

fn main(rt: HostRuntime) -> io::Result<()> {
    let mut from = rt.reader();
    let mut to = io::writer(&rt);
    for _ in 0..100000 {
        if !turn(&mut from, &mut to)? {
            break;
        }
    }
    Ok(())
}
