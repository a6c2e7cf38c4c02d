// The check of a catalogue for any bytes, and the look-ups that the rest needs.
// The definitions are in specs/: Fault has the check, Tables what a catalogue says, Starts where its tables stand.
#![tactic(auto)]

ghost use Rattle.std.specs.Prelude.{◌≡◌, ℕ, ◌+◌, ◌-◌, ◌*◌, ◌≤◌, ◌<◌, length};
ghost use Rattle.word.specs.Refusal.{said};
ghost use Rattle.catalogue.specs.Fault.{named_rule, one_table, one_column, table_used, column_used, has_column, table_fault, column_fault, fault_at, fault_number, lowest, check_of};
ghost use Rattle.catalogue.specs.Rising.{TablesTo, ColumnsTo, Sees, table_top, column_top};

mod lookup;

pub use lookup::{find_table, info_at, start_at, starts, type_at};
use word::{Reason, Record, Refusal};

// Whether a record's name isn't 0 and its op is 0 or 1.
fn named_rule(this: Record) -> bool
    ensures { result ≡ named_rule this.a this.op }
{
    1 <= this.a && this.op <= 1
}

// Whether a table record before record i has the name; top is the highest name of one.
#[tactic(auto, using(crate::proofs::Laws::looks), unfolding(word::specs::Record::rec_at))]
fn table_used(cat: &[u8], i: usize, name: u16, top: u16) -> bool
    requires i_in_bounds { 8 + 8 * i ≤ length cat.now }
    requires tables_to { TablesTo cat.now i top }
    ensures { result ≡ table_used cat.now name i }
{
    if top < name {
        return false;
    }
    for j in (0..i).rev() {
        let here = word::record_at(cat, j);
        if here.kind == 1 && here.a == name {
            return true;
        }
    }
    false
}

// Whether a column record before record i, and after the last table record, has the name; top is the highest name of one.
#[tactic(auto, using(crate::proofs::Laws::looks), unfolding(word::specs::Record::rec_at))]
fn column_used(cat: &[u8], i: usize, name: u16, top: u16) -> bool
    requires i_in_bounds { 8 + 8 * i ≤ length cat.now }
    requires columns_to { ColumnsTo cat.now i top }
    ensures { result ≡ column_used cat.now name i }
{
    if top < name {
        return false;
    }
    for j in (0..i).rev() {
        let here = word::record_at(cat, j);
        match here.kind {
            1 => return false,
            2 if here.a == name => return true,
            _ => {}
        }
    }
    false
}

// Whether a column stands at record i or after it, before the next table.
#[tactic(auto, using(crate::proofs::Laws::looks), unfolding(word::specs::Record::rec_at))]
fn has_column(cat: &[u8], n: usize, i: usize) -> bool
    requires { (8 + 8 * n ≤ length cat.now) × (i ≤ n) }
    ensures { result ≡ has_column cat.now (n - i) i }
{
    for j in i..n {
        match word::record_at(cat, j).kind {
            2 => return true,
            1 => return false,
            _ => {}
        }
    }
    false
}

// What the records before a record say: how many tables, how many columns the last of them has, the highest name of a
// table, and the highest name of a column of the last table.
#[derive(Clone, Copy, PartialEq, Eq, Debug)]
struct Seen {
    tables: usize,
    columns: usize,
    highest_table: u16,
    highest_column: u16,
}

impl Seen {
    // What is seen before the first record.
    const NOTHING: Seen = Seen {
        tables: 0,
        columns: 0,
        highest_table: 0,
        highest_column: 0,
    };

    // What is seen, one record further.
    fn after(self, next: Record) -> Seen
        requires few { (self.tables < 65536) × (self.columns < 65536) }
        ensures tables { result.tables ≡ one_table next.kind self.tables }
        ensures columns { result.columns ≡ one_column next.kind self.columns }
        ensures highest_table { result.highest_table ≡ table_top next.kind next.a self.highest_table }
        ensures highest_column { result.highest_column ≡ column_top next.kind next.a self.highest_column }
    {
        match next.kind {
            1 => Seen {
                tables: self.tables + 1,
                columns: 0,
                highest_table: self.highest_table.max(next.a),
                highest_column: 0,
            },
            2 => Seen {
                columns: self.columns + 1,
                highest_column: self.highest_column.max(next.a),
                ..self
            },
            _ => self,
        }
    }

    // The fault of record i, a table's.
    #[tactic(auto, unfolding(crate::specs::Fault::table_fault, word::specs::Record::rec_at))]
    fn table_fault(&self, cat: &[u8], n: usize, i: usize) -> Option<Reason>
        requires n_in_bounds { (8 + 8 * n ≤ length cat.now) × (i < n) }
        requires seen { Sees cat.now i self.now }
        ensures { fault_number result ≡ table_fault cat.now n i self.now.tables }
    {
        let here = word::record_at(cat, i);
        if !named_rule(here) || 32 <= self.tables || !has_column(cat, n, i + 1) {
            return Some(Reason::CatalogueRule);
        }
        table_used(cat, i, here.a, self.highest_table).then_some(Reason::NameUsed)
    }

    // The fault of record i, a column's.
    #[tactic(auto, unfolding(crate::specs::Fault::column_fault, word::specs::Record::rec_at))]
    fn column_fault(&self, cat: &[u8], i: usize) -> Option<Reason>
        requires i_in_bounds { 8 + 8 * i + 8 ≤ length cat.now }
        requires seen { Sees cat.now i self.now }
        ensures { fault_number result ≡ column_fault cat.now i self.now.tables self.now.columns }
    {
        let here = word::record_at(cat, i);
        if !named_rule(here) || self.tables == 0 || 64 <= self.columns || !cell::type_rule(here.c) {
            return Some(Reason::CatalogueRule);
        }
        column_used(cat, i, here.a, self.highest_column).then_some(Reason::NameUsed)
    }

    // The fault of record i, by its kind.
    #[tactic(auto, unfolding(crate::specs::Fault::fault_by, word::specs::Record::rec_at))]
    fn fault(&self, cat: &[u8], n: usize, i: usize) -> Option<Reason>
        requires n_in_bounds { (8 + 8 * n ≤ length cat.now) × (i < n) }
        requires seen { Sees cat.now i self.now }
        ensures { fault_number result ≡ fault_at cat.now n i }
    {
        match word::record_at(cat, i).kind {
            1 => self.table_fault(cat, n, i),
            2 => self.column_fault(cat, i),
            _ => Some(Reason::CatalogueRule),
        }
    }
}

// The lowest fault of n records; with none, the number of tables.
#[tactic(auto, using(crate::proofs::Laws::lows))]
fn records(cat: &[u8], n: usize) -> Result<usize, Refusal>
    requires { (8 + 8 * n ≤ length cat.now) × (n ≤ 2080) }
    ensures { said result ≡ lowest cat.now n n 0 }
{
    let mut seen = Seen::NOTHING;
    for i in 0..n {
        if let Some(reason) = seen.fault(cat, n, i) {
            return Err(Refusal {
                reason,
                place: i as u16,
            });
        }
        seen = seen.after(word::record_at(cat, i));
    }
    Ok(seen.tables)
}

/// The check of a catalogue, for any bytes: the number of its tables; or the refusal, with the number of a record.
#[tactic(auto, using(word::proofs::Laws::headed_long), unfolding(crate::specs::Fault::check_of))]
pub fn check(cat: &[u8]) -> Result<usize, Refusal>
    ensures { said result ≡ check_of cat.now }
{
    if !word::opens(cat, b"DRC\0") {
        return Err(Refusal {
            reason: Reason::CatalogueHeader,
            place: 0,
        });
    }
    let n = usize::from(word::u16_at(cat, 6));
    if !matches!(n, 1..=2080) || cat.len() != 8 + 8 * n {
        return Err(Refusal {
            reason: Reason::CatalogueLength,
            place: 0,
        });
    }
    records(cat, n)
}
