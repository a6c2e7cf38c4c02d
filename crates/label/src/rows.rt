// The row classes of a block's tables, joined from the left: what is known of them, and their tree written.
// The definitions are in specs/Rows.
// Stays: recursions, as the definition has them; a loop can't write the last join first.
ghost use Rattle.std.specs.Prelude.{◌≡◌, ◌+◌, ◌*◌, ◌≤◌, length};
ghost use Rattle.word.specs.Writer.{Writes};
ghost use Rattle.scope.specs.Entry.{Among};
ghost use Rattle.tree.specs.Tree.{rec_of, encode};
ghost use Rattle.tree.specs.Trans.{as_tree, info_of};
ghost use Rattle.tree.specs.Levels.{Fits};
ghost use Rattle.label.specs.Rows.{row_item, rows_to, rows_in};

use tree::kinds;
use word::{Record, Writer};

// What is known of the row classes of the tables 0 to j.
pub fn info(s: scope::Scope, cat: &[u8], n: usize, j: usize) -> class::Info
    requires { (8 + 8 * n ≤ length cat.now) × Among n s }
    ensures { result ≡ info_of (rows_to (rows_in cat.now n s) j) }
{
    if j == 0 {
        return scope::row_info(s, cat, n, 0);
    }
    info(s, cat, n, j - 1).join(scope::row_info(s, cat, n, j))
}

// The row class of table j, in one record.
pub fn one(s: scope::Scope, cat: &[u8], n: usize, j: usize) -> Record
    requires { (8 + 8 * n ≤ length cat.now) × Among n s × (j ≤ 4) }
    ensures { rec_of result ≡ encode (as_tree (row_item (rows_in cat.now n s) j)) }
{
    match scope::row_info(s, cat, n, j) {
        class::Info::Fixed(k) => Record {
            a: k,
            ..kinds::CLASS
        },
        class::Info::Bound(_) => Record {
            b: j as u16,
            ..kinds::ROW_CLASS
        },
    }
}

// The row classes of the tables 0 to j.
pub fn write(s: scope::Scope, cat: &[u8], n: usize, j: usize, writer: &mut Writer)
    requires among { (8 + 8 * n ≤ length cat.now) × Among n s × (j ≤ 4) }
    requires room { Fits (encode (as_tree (rows_to (rows_in cat.now n s) j))) writer.old }
    ensures { Writes (encode (as_tree (rows_to (rows_in cat.now n s) j))) writer.old writer.new }
{
    if j == 0 {
        writer.put(one(s, cat, n, 0));
        return;
    }
    let i = info(s, cat, n, j);
    match i {
        class::Info::Fixed(k) => writer.put(Record {
            a: k,
            ..kinds::CLASS
        }),
        class::Info::Bound(_) => {
            let before = info(s, cat, n, j - 1);
            writer.put(kinds::LUB);
            match before {
                class::Info::Fixed(k) => {
                    writer.put(one(s, cat, n, j));
                    writer.put(Record {
                        a: k,
                        ..kinds::CLASS
                    });
                }
                class::Info::Bound(_) => {
                    write(s, cat, n, j - 1, writer);
                    writer.put(one(s, cat, n, j));
                }
            }
        }
    }
}
