#![tactic(auto)]
// Whether a table is sound, where it lies: what must fit is laid into two sums, one of the seats and one of the cells, each tested at its end.
ghost use Rattle.std.specs.Prelude.{◌≡◌, ◌≤◌, length, get_or};
ghost use Rattle.desk.specs.Desk.{cell_at, past_seat};
ghost use Rattle.desk_sums.specs.Rows.{cells_sum, seats_sum};
ghost use Rattle.table.specs.Sound.{table_sound};

use desk::sound::tray_sound;
use desk::{Cell, Counts, Place, Seat, Tray};
use desk_sums::rows::row_sum;
use desk_sums::{Sum, slot_cell, used_by};
use table::Table;

// (The places as a slice and not the tray: it shows the proof how many they are.)
fn seats_sum(seats: &[Seat], n: Counts, places: &[Place]) -> Sum
    requires { length places.now ≡ 32 }
    ensures { result ≡ seats_sum (record { counts = n; places = places.now }) (λ d. get_or seats.now d past_seat) (length seats.now) }
{
    let mut sum = Sum::NONE;
    for (d, s) in seats.iter().enumerate() {
        sum = sum.seat_of(n, d, places[slot_cell(*s)], *s);
    }
    sum
}

// (Rows by their desk's number: over `chunks_exact(32).enumerate()` it proves too, but an event of 8 x 32 took 1.3 to 1.9 times as long.)
fn cells_sum(cells: &[Cell], t: &Tray) -> Sum
    requires { (length cells.now ≡ 256) × (t.now.counts.cells ≤ 32) }
    ensures { result ≡ cells_sum t.now (cell_at cells.now) 8 }
{
    let mut sum = Sum::NONE;
    for d in 0..8 {
        let n = used_by(t.counts, d);
        sum = row_sum(&cells[d * 32..d * 32 + 32], t, d, n, sum);
    }
    sum
}

pub fn sound(t: &Table) -> bool
    ensures { result ≡ table_sound t.now }
{
    if !tray_sound(t.tray) {
        return false;
    }
    let n = t.tray.counts;
    if !seats_sum(&t.seats, n, &t.tray.places).fits(n.desks) {
        return false;
    }
    cells_sum(&t.cells, &t.tray).fits(n.desks)
}
