// A desk's row of cells, in its record or in the table, summed.
ghost use Rattle.std.specs.Prelude.{◌≡◌, ◌≤◌, length};
ghost use Rattle.desk.specs.Desk.{cell_at, place_at};
ghost use Rattle.desk_sums.specs.Rows.{used_sum, past_sum, row_sum};

use crate::Sum;
use desk::{Cell, Tray};

// Cells that are the tray's, each with its place. (By number: over `zip` an item is told by the iterator's state, and the proof of a sum by places is longer.)
fn used_sum(cells: &[Cell], t: &Tray, d: usize, s: Sum) -> Sum
    requires { length cells.now ≤ 32 }
    ensures { result ≡ used_sum (place_at t.now) (cell_at cells.now) d s (length cells.now) }
{
    let mut sum = s;
    for (c, x) in cells.iter().enumerate() {
        sum = sum.used(t.places[c].kept_by(d), *x);
    }
    sum
}

// Cells that are none of the tray's.
fn past_sum(cells: &[Cell], s: Sum) -> Sum
    ensures { result ≡ past_sum (cell_at cells.now) 0 s (length cells.now) }
{
    let mut sum = s;
    for x in cells {
        sum = sum.rest(*x);
    }
    sum
}

// Desk d's row, whose first n cells are the tray's. (n beside it: a record's row is summed before its tray is known to be sound. Inlined, so that the
// table's sum stays in registers from row to row.)
#[inline(always)]
pub fn row_sum(row: &[Cell], t: &Tray, d: usize, n: usize, s: Sum) -> Sum
    requires { (n ≤ 32) × (length row.now ≡ 32) }
    ensures { result ≡ row_sum (place_at t.now) (cell_at row.now) d n s }
{
    let (used, past) = row.split_at(n);
    past_sum(past, used_sum(used, t, d, s))
}
