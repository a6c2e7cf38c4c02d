// The look-ups in a catalogue: where its tables stand, a table by its name, the type and the class of a record.
// A caller holds the tables' records in an array, which `starts` fills once.
// Stays: an array with its count beside it, and four parameters together; the callers above hold them in one struct with more (resolve's Source), and a second struct would be made of it at each call.
ghost use Rattle.std.specs.Prelude.{◌≡◌, ◌+◌, ◌*◌, ◌≤◌, ◌<◌, length, get_or, IfSome};
ghost use Rattle.word.specs.Record.{op_at, b_at};
ghost use Rattle.class.specs.Info.{info_by};
ghost use Rattle.catalogue.specs.Tables.{column_at, tables_from, table_named};
ghost use Rattle.catalogue.specs.Starts.{starts_array, StartsAre, ref_of};

/// The records of the tables among n records, in order, in an array for 32: zeros stand after them, and a 33rd is left out.
pub fn starts(cat: &[u8], n: usize) -> [u16; 32]
    requires { (8 + 8 * n ≤ length cat.now) × (n ≤ 2080) }
    ensures { result ≡ starts_array cat.now n }
{
    let mut slots = [0u16; 32];
    let mut tables = 0;
    for i in 0..n {
        if word::record_at(cat, i).kind == 1 {
            if tables < slots.len() {
                slots[tables] = i as u16;
            }
            tables += 1;
        }
    }
    slots
}

/// The record of table j.
pub fn start_at(cat: &[u8], n: usize, starts: &[u16; 32], tables: usize, j: usize) -> usize
    requires starts_are { StartsAre cat.now n tables starts.now }
    requires j_lt_tables { j < tables }
    ensures { (result ≡ get_or starts.now j 0) × (result < n) }
{
    usize::from(starts[j])
}

/// The number among the tables of the one with a name, if there is one.
pub fn find_table(
    cat: &[u8],
    n: usize,
    starts: &[u16; 32],
    tables: usize,
    name: u16,
) -> Option<usize>
    requires n_in_bounds { 8 + 8 * n ≤ length cat.now }
    requires starts_are { StartsAre cat.now n tables starts.now }
    ensures found { table_named name (tables_from cat.now n n 0) ≡ ref_of cat.now n starts.now result }
    ensures few { IfSome result (λ j. j < tables) }
{
    (0..tables).find(|&j| word::record_at(cat, start_at(cat, n, starts, tables, j)).a == name)
}

/// The type of the column of record i.
#[tactic(auto, unfolding(crate::specs::Tables::column_at, word::specs::Record::rec_at))]
pub fn type_at(cat: &[u8], i: usize) -> cell::Type
    requires { 8 + 8 * i + 8 ≤ length cat.now }
    ensures { result ≡ (column_at cat.now i).ty }
{
    cell::type_by(word::record_at(cat, i).c)
}

/// What record i says of a class: that of a column's cells, or of a table's rows.
#[tactic(auto, unfolding(word::specs::Record::rec_at))]
pub fn info_at(cat: &[u8], i: usize) -> class::Info
    requires { 8 + 8 * i + 8 ≤ length cat.now }
    ensures { result ≡ info_by (op_at cat.now i) (b_at cat.now i) }
{
    let here = word::record_at(cat, i);
    class::Info::by_op(here.op, here.b)
}
