// The C interface of the two jobs: Translate and Answer by pointers and lengths, the result in one number. include/wayrinka.h declares both.
// The definitions are in the specs/ of filter: Steps has what each number stands for.
#![tactic(auto)]

ghost use Rattle.std.specs.Prelude.{◌≡◌};
ghost use Rattle.word.specs.Refusal.{said};
ghost use Rattle.filter.specs.Steps.{word_of, TranslatedWord, AnsweredWord};

use word::Refusal;

// A result as one number: number + 65536 × place + 2^32 × count.
fn word_of(given: Result<usize, Refusal>) -> u64
    ensures { result ≡ word_of (said given) }
{
    match given {
        Ok(count) => 4294967296 * (count % 65536) as u64,
        Err(refusal) => u64::from(refusal.reason.number()) + 65536 * u64::from(refusal.place),
    }
}

// Stays: both exports have many parameters, pointers with their lengths and the two classes: the C interface, wayrinka_translate and wayrinka_answer of include/wayrinka.h.
#[unsafe(no_mangle)]
pub extern "C" fn wayrinka_translate(
    cat: &[u8],
    view: &[u8],
    k: u16,
    q: u16,
    tree: &mut [u8],
) -> u64
    ensures { TranslatedWord cat.now view.now k q tree.old tree.new result }
{
    word_of(filter::translate(cat, view, k, q, tree))
}

#[unsafe(no_mangle)]
pub extern "C" fn wayrinka_answer(
    cat: &[u8],
    view: &[u8],
    k: u16,
    q: u16,
    tree: &mut [u8],
    store: &[u8],
    out: &mut [u8],
) -> u64
    ensures { AnsweredWord cat.now view.now k q store.now tree.old out.old tree.new out.new result }
{
    word_of(filter::answer(cat, view, k, q, tree, store, out))
}
