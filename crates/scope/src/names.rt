// A name's look-up: what the tables of a catalogue, a block, and an open scope have for it.
// The definitions are in specs/: Scopes has the rule of names, Match parts of an answer.
ghost use Rattle.std.specs.Prelude.{◌≡◌, ◌+◌, ◌-◌, ◌*◌, ◌≤◌, ◌<◌, ◌==◌, ◌||◌, length, min};
ghost use Rattle.class.specs.declared.Info.TheVariants.{Fixed};
ghost use Rattle.class.specs.Info.{info_by};
ghost use Rattle.word.specs.Record.{op_at, a_at, b_at};
ghost use Rattle.catalogue.specs.Tables.{column_at};
ghost use Rattle.scope.specs.Scopes.{only_of, in_tabs, in_scope};
ghost use Rattle.scope.specs.Entry.{info_in};
ghost use Rattle.scope.specs.Table.{tabs_at, open_of};
ghost use Rattle.scope.specs.Match.{found_in, FirstIs, MatchIs, AnyIs};
ghost use Rattle.scope.specs.declared.Scope.TheVariants as S;

use crate::{Block, Found, Scope};

/// The columns of a table that have a name: none, the one column's record, or several.
#[derive(Clone, Copy, PartialEq, Eq, Debug)]
pub enum Matches {
    None,
    One(usize),
    Several,
}

/// A name, bare where its qualifier is 0, to be found in a catalogue of n records.
#[derive(Clone, Copy)]
pub struct Lookup<'a> {
    pub cat: &'a [u8],
    pub n: usize,
    pub name: u16,
    pub qualifier: u16,
    ghost long: { 8 + 8 * n ≤ length cat.now },
    ghost few: { n ≤ 2080 },
}

impl<'a> Lookup<'a> {
    // The first record, from i on, of a column of the same table that has the name.
    fn first_named(&self, i: usize) -> Option<usize>
        requires { 1 ≤ i }
        ensures { FirstIs self.now.cat.now self.now.n i self.now.name result }
    {
        for j in i..self.n {
            let column = word::record_at(self.cat, j);
            if column.kind != 2 {
                return None;
            }
            if column.a == self.name {
                return Some(j);
            }
        }
        None
    }

    // Whether the name may be that of a column of the table of record t: it is bare, or qualified by the table's name.
    #[tactic(auto, unfolding(word::specs::Record::rec_at))]
    fn may_mean(&self, t: usize) -> bool
        requires { t < self.now.n }
        ensures { result ≡ (self.now.qualifier == 0 || a_at self.now.cat.now t == self.now.qualifier) }
    {
        self.qualifier == 0 || word::record_at(self.cat, t).a == self.qualifier
    }

    // The columns of the table of record t that the name may mean.
    fn in_table(&self, t: usize) -> Matches
        ensures { MatchIs self.now.cat.now self.now.n t self.now.name self.now.qualifier result }
    {
        if self.n <= t {
            return Matches::None;
        }
        if !self.may_mean(t) {
            return Matches::None;
        }
        let Some(i) = self.first_named(t + 1) else {
            return Matches::None;
        };
        match self.first_named(i + 1) {
            Some(_) => Matches::Several,
            None => Matches::One(i),
        }
    }

    // The match of the column of record i, which is one of the table of record t, number `table` of its block.
    #[tactic(auto, unfolding(catalogue::specs::Tables::column_at))]
    fn column_at(&self, t: usize, i: usize, outward: u16, table: u16) -> Found
        requires { (t < i) × (i < self.now.n) }
        ensures { result ≡ Found.Column outward table (i - (t + 1)) (column_at self.now.cat.now i).ty (column_at self.now.cat.now i).info (info_by (op_at self.now.cat.now t) (b_at self.now.cat.now t)) }
    {
        Found::Column {
            outward,
            table,
            column: (i - (t + 1)) as u16,
            ty: catalogue::type_at(self.cat, i),
            cell: catalogue::info_at(self.cat, i),
            row: catalogue::info_at(self.cat, t),
        }
    }

    // Whether a table of a block, from number `from` on, has the name.
    fn is_in_later(&self, block: &Block, from: usize) -> bool
        ensures { AnyIs self.now.cat.now self.now.n (S.Block block.now) (min block.now.count 4) self.now.name self.now.qualifier from result }
    {
        for j in from..usize::from(block.count.min(4)) {
            match self.in_table(usize::from(block.tables[j])) {
                Matches::None => {}
                _ => return true,
            }
        }
        false
    }

    // What the tables of a block have.
    // Stays: the later tables are looked at once there is a match, and the answer is made then. With the answer so far kept through the loop it proves as well, and `find` took 1.46 to 1.64 times the instructions.
    fn in_block(&self, block: &Block, outward: u16) -> Found
        ensures { result ≡ found_in (Fixed 0) (only_of (in_tabs self.now.name self.now.qualifier outward 0 (tabs_at self.now.cat.now self.now.n (S.Block block.now) 0 (min block.now.count 4)))) }
    {
        for j in 0..usize::from(block.count.min(4)) {
            let t = usize::from(block.tables[j]);
            match self.in_table(t) {
                Matches::None => {}
                Matches::One(i) => {
                    if self.is_in_later(block, j + 1) {
                        return Found::Ambiguous;
                    }
                    return self.column_at(t, i, outward, j as u16);
                }
                Matches::Several => return Found::Ambiguous,
            }
        }
        Found::None
    }

    /// What one open scope has.
    pub fn in_scope(&self, scope: &Scope, outward: u16) -> Found
        ensures { result ≡ found_in (info_in scope.now) (only_of (in_scope self.now.name self.now.qualifier outward (open_of self.now.cat.now self.now.n scope.now))) }
    {
        match scope {
            Scope::Block(block) => self.in_block(block, outward),
            Scope::Local(local) => {
                if self.qualifier == 0 && local.name == self.name {
                    Found::Local {
                        outward,
                        ty: local.ty,
                        info: local.info,
                    }
                } else {
                    Found::None
                }
            }
        }
    }
}
