// A block's entry, and what is known of a block from what is known of its where and its value, over that entry.
// The tables' row classes and their own classes are looked up in the catalogue.
ghost use Rattle.std.specs.Prelude.{◌≡◌, ◌+◌, ◌*◌, ◌≤◌, length, min, [], ◌∷◌};
ghost use Rattle.word.specs.Refusal.{said};
ghost use Rattle.class.specs.Class.{lub_all};
ghost use Rattle.class.specs.Info.{bound_of, join_i, choice_i};
ghost use Rattle.class.specs.declared.Info.TheVariants.{Fixed, Bound};
ghost use Rattle.scope.specs.Table.{open_of};
ghost use Rattle.scope.specs.Blocks.{tables_named};
ghost use Rattle.scope.specs.Entry.{count_in, opened_by, tables_in, classes_of};
ghost use Rattle.view.specs.Parse.{names_at};
ghost use Rattle.catalogue.specs.Tables.{tables_from};
ghost use Rattle.resolve.specs.Infos.{block_i};
ghost use Rattle.resolve.specs.Sizes.{weighed, joins_w, join_all_w, choice_w, rows_w};
ghost use Rattle.resolve.specs.Steps.{class_of, stopped, agg_w, refs_to, exists_k, single_k, exists_t, single_t};
ghost use Rattle.resolve.specs.Claims.{Lent, Opening, or_no_table};

use crate::steps::{plus, wrong_type};
use crate::totals::{fold_type, pick_type};
use crate::{Known, Source, Weighed};
use word::{Reason, Refusal};

/// The entry of a block whose TABLE records stand from record `at` on; or `NoTable` at the first of them whose table isn't in the catalogue.
pub fn open_block(source: &Source, at: usize, count: usize) -> Result<scope::Scope, Refusal>
    requires lent { Lent source.now.cat.now source.now.starts.now source.now.view.now source.now.files }
    requires count_in_bounds { 8 + 8 * (at + count) ≤ length source.now.view.now }
    requires count_bound { count ≤ 4 }
    requires place_bound { at + count ≤ 65536 }
    ensures { said result ≡ or_no_table (opened_by source.now.starts.now (tables_named (tables_from source.now.cat.now source.now.files.nc source.now.files.nc 0) (names_at source.now.view.now at count))) }
{
    let files = source.files;
    match scope::open_block(
        source.cat,
        files.nc,
        source.starts,
        files.tables,
        source.view,
        at,
        count,
    ) {
        Ok(own) => Ok(own),
        Err(place) => Err(Refusal {
            reason: Reason::NoTable,
            place: place as u16,
        }),
    }
}

/// AGG over what is read at one row, of m tables, joined with the tables' class k.
#[tactic(auto, using(crate::proofs::Tables::rowed))]
fn agg(m: u16, k: u16, row: Weighed) -> Weighed
    ensures { result ≡ stopped (agg_w m k row) }
{
    let bound = class::Info::Bound(row.info.bound());
    Weighed::new(bound, plus(1, plus(m, row.size))).join(Weighed::new(class::Info::Fixed(k), 1))
}

/// What is known of a block's class: AGG is a tree even over a fixed class; k is the tables' class.
#[tactic(auto, using(crate::proofs::Tables::informed))]
fn agg_info(row: class::Info, k: u16) -> class::Info
    ensures { result ≡ join_i (Bound (bound_of row)) (Fixed k) }
{
    class::Info::Bound(row.bound()).join(class::Info::Fixed(k))
}

/// What VALUE, MAX and MIN read at one row: its classes, the where, and the choice of the value or nothing.
#[tactic(auto, using(crate::proofs::Tables::rowed))]
fn at_row(q: Weighed, x: Known, y: Known) -> Weighed
    ensures { result ≡ stopped (joins_w q (class_of x ∷ choice_w x.values (class_of y) (weighed (Fixed 0) 1) ∷ [])) }
{
    let none = Weighed::new(class::Info::Fixed(0), 1);
    q.join(x.class()).join(y.class().choose(x.values, none))
}

/// A block that is open: its entry, and the catalogue that has its tables.
#[derive(Clone, Copy)]
pub struct Opened<'a> {
    pub own: scope::Scope,
    pub cat: &'a [u8],
    pub nc: usize,
    ghost opening: { Opening cat.now nc own },
}

impl<'a> Opened<'a> {
    ghost use Rattle.resolve.specs.Opened.{tables_of, refs_of};

    /// How many tables it has.
    fn tables(&self) -> u16
        ensures { (result ≡ min (count_in self.now.own) 4) × (result ≤ 4) }
    {
        scope::tables_in(self.own) as u16
    }

    /// The row classes of its tables, joined in order.
    fn rows(&self) -> Weighed
        ensures { stopped result ≡ stopped (join_all_w (rows_w (refs_of self.now))) }
    {
        let m = scope::tables_in(self.own);
        let mut joined = Weighed::new(scope::row_info(self.own, self.cat, self.nc, 0), 1);
        for j in 1..m {
            joined = joined.join(Weighed::new(scope::row_info(self.own, self.cat, self.nc, j), 1));
        }
        joined
    }

    /// The class of its tables.
    fn class(&self) -> u16
        ensures { result ≡ lub_all (classes_of (tables_of self.now)) }
    {
        scope::block_class(self.own, self.cat, self.nc)
    }

    /// EXISTS or COUNT, of whose where this is known.
    fn kept(&self, f: view::Fold, x: Known) -> Known
        ensures { result ≡ exists_k f (refs_of self.now) x }
    {
        let m = self.tables();
        let row = self.rows().join(x.class());
        let class = agg(m, self.class(), row);
        Known::new(fold_type(f), x.next, plus(1, plus(m, x.values)), class)
    }

    /// VALUE, MAX or MIN of a type, of whose where and of whose value this is known.
    fn picked(&self, t: cell::Type, x: Known, y: Known) -> Known
        ensures { result ≡ single_k t (refs_of self.now) x y }
    {
        let m = self.tables();
        let row = at_row(self.rows(), x, y);
        let class = agg(m, self.class(), row);
        Known::new(t, y.next, plus(1, plus(m, plus(x.values, y.values))), class)
    }

    /// EXISTS and COUNT at a record, of whose where x is known; 9 where that isn't boolean.
    #[tactic(auto, using(cell::proofs::Equal::equal_types), unfolding(crate::specs::Steps::exists_t, crate::specs::Steps::bool_t))]
    pub(crate) fn exists(&self, at: u16, f: view::Fold, x: Known) -> Result<Known, Refusal>
        ensures { said result ≡ exists_t at f (refs_of self.now) x }
    {
        if x.ty != cell::Type::Boolean {
            return Err(wrong_type(at));
        }
        Ok(self.kept(f, x))
    }

    /// VALUE, MAX and MIN at a record, of whose where x and of whose value y is known; 9 where the where isn't boolean or the value has no order.
    #[tactic(auto, using(cell::proofs::Equal::equal_types, cell::proofs::Options::options), unfolding(crate::specs::Steps::single_t, crate::specs::Steps::bool_t, crate::specs::Steps::ruled_t))]
    pub(crate) fn single(
        &self,
        at: u16,
        g: view::Pick,
        x: Known,
        y: Known,
    ) -> Result<Known, Refusal>
        ensures { said result ≡ single_t at g (refs_of self.now) x y }
    {
        if x.ty != cell::Type::Boolean {
            return Err(wrong_type(at));
        }
        let Some(ty) = pick_type(g, y.ty) else {
            return Err(wrong_type(at));
        };
        Ok(self.picked(ty, x, y))
    }
}

/// What is known of the class of EXISTS and COUNT, from what is known of the where's.
pub fn exists_info(s: scope::Scope, cat: &[u8], n: usize, x: class::Info) -> class::Info
    requires { Opening cat.now n s }
    ensures { result ≡ block_i (refs_to (tables_in (open_of cat.now n s))) (x ∷ []) }
{
    let opened = Opened { own: s, cat, nc: n };
    agg_info(opened.rows().info.join(x), opened.class())
}

/// The same of VALUE, MAX and MIN, from what is known of the where's class and of the value's.
pub fn single_info(
    s: scope::Scope,
    cat: &[u8],
    n: usize,
    x: class::Info,
    y: class::Info,
) -> class::Info
    requires { Opening cat.now n s }
    ensures { result ≡ block_i (refs_to (tables_in (open_of cat.now n s))) (x ∷ choice_i y (Fixed 0) ∷ []) }
{
    let opened = Opened { own: s, cat, nc: n };
    let choice = y.choose(class::Info::Fixed(0));
    agg_info(opened.rows().info.join(x).join(choice), opened.class())
}
