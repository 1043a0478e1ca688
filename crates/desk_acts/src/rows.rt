// A desk's row of cells, in its record or in the table.
ghost use Rattle.std.specs.Prelude.{◌≡◌, ◌≤◌, length};
ghost use Rattle.theory_lists.specs.Swept.{swept, swept_count};
ghost use Rattle.desk.specs.Desk.{is_lost, no_cell, past_cell};

use crate::is_lost;
use clock::Clock;
use desk::{Cell, Tray};

// Of its cells that are the tray's, desk d loses the copies strictly before a clock that it learns; how many. (No `zip` with the places, as in
// `Clock::merge`.)
pub fn lose(cells: &mut [Cell], t: &Tray, d: usize, learnt: Clock) -> u32
    requires { (length cells.old ≤ t.now.counts.cells) × (t.now.counts.cells ≤ 32) }
    ensures count { result ≡ swept_count (is_lost t.now d learnt) no_cell past_cell 0 (length cells.old) cells.old }
    ensures left { cells.new ≡ swept (is_lost t.now d learnt) no_cell past_cell 0 (length cells.old) cells.old }
{
    let mut lost = 0;
    for (c, x) in cells.iter_mut().enumerate() {
        if is_lost(t.places[c].kept_by(d), learnt, *x) {
            *x = Cell::NONE;
            lost += 1;
        }
    }
    lost
}
