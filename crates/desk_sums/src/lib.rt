#![tactic(auto)]
// Soundness as a running sum that is tested once: what each cell and each seat adds, and the test.
// Methods of a sum; `rows` goes through the cells.
ghost use Rattle.std.specs.Prelude.{◌≡◌};
ghost use Rattle.desk_sums.specs.Sums.{rest_of, add_kept, add_clock, noted, slot_bad, add_seat, add_seat_of, slot_cell, sum_fits};
ghost use Rattle.desk_sums.specs.Sums.{used_by, record_fits, row_count};

pub mod rows;

use clock::Clock;
use desk::kinds::Kind;
use desk::sound::{is_blank, sent_fits, tray_sound};
use desk::{Cell, Counts, Place, Seat, Slot, Tray};

// h is over what may have a number for each desk, z over clocks that must be zero, w over what else must be.
// (w is wider than a clock's numbers, else the compiler takes those one by one.)
#[derive(Clone, Copy)]
pub struct Sum {
    pub h: Clock,
    pub z: Clock,
    pub w: u64,
}

impl Sum {
    pub const NONE: Sum = Sum {
        h: Clock::ZERO,
        z: Clock::ZERO,
        w: 0,
    };
}

impl Sum {
    // A clock that may be there, with any word; or that must be zero, with its word.
    #[tactic(auto, unfolding(crate::specs::Sums::add_clock, crate::specs::Sums::joined))]
    fn clock(self, carried: bool, c: Clock, word: u32) -> Sum
        ensures { result ≡ add_clock self carried c word }
    {
        if carried {
            return Sum {
                h: self.h | c,
                ..self
            };
        }
        Sum {
            z: self.z | c,
            w: self.w | word as u64,
            ..self
        }
    }

    // Something that must not be.
    fn noted(self, bad: bool) -> Sum
        ensures { result ≡ noted self bad }
    {
        Sum {
            w: self.w | bad as u64,
            ..self
        }
    }

    // A cell that is none of the tray's.
    #[tactic(auto, unfolding(crate::specs::Sums::rest_of))]
    pub fn rest(self, x: Cell) -> Sum
        ensures { result ≡ rest_of self x }
    {
        self.clock(false, x.stamp, x.word).noted(x.held)
    }

    // A cell of the tray. A held one whose stamp is all zeros is added as one that is not held, so that its word must be 0. (`kept` is asked only
    // of a cell that does not hold a stamp. The stamp first, and `&&`: the other way round a keeper's write at a record took 1.02 of the twin's time, and with
    // `&` the table's rows 1.7 times as long.)
    #[tactic(auto, unfolding(crate::specs::Sums::add_kept))]
    pub fn used(self, kept: bool, x: Cell) -> Sum
        ensures { result ≡ add_kept self kept x }
    {
        if !is_blank(x.stamp) && x.held {
            return self.clock(true, x.stamp, x.word);
        }
        self.clock(false, x.stamp, x.word).noted(kept & !x.held)
    }

    // What a desk has beside its cells: whether the desk is there, the cell count, whether it keeps the cell that its slot names.
    #[tactic(auto, unfolding(crate::specs::Sums::add_seat))]
    pub fn seat(self, there: bool, cells: u8, own: bool, v: Seat) -> Sum
        ensures { result ≡ add_seat self there cells own v }
    {
        let slot = v.slot;
        // (By number: the definition says it of any from a write asked on.)
        let full = there & (Kind::WriteAsked as u8 <= slot.kind) & !is_blank(slot.clock);
        self.clock(there, v.clock, 0)
            .clock(full, slot.clock, slot.word)
            .noted(slot_bad(there, cells, own, slot, v.served))
    }

    // Desk d's seat, whose slot's cell has place p.
    pub fn seat_of(self, n: Counts, d: usize, p: Place, v: Seat) -> Sum
        ensures { result ≡ add_seat_of self n d p v }
    {
        self.seat(d < n.desks as usize, n.cells, p.kept_by(d), v)
    }

    pub fn fits(self, desks: u8) -> bool
        ensures { result ≡ sum_fits self desks }
    {
        (self.w == 0) & (self.z.within(0) & self.h.within(desks))
    }
}

#[tactic(auto, unfolding(crate::specs::Sums::slot_bad))]
fn slot_bad(there: bool, cells: u8, own: bool, s: Slot, served: bool) -> bool
    ensures { result ≡ slot_bad there cells own s served }
{
    match Kind::try_from(s.kind) {
        Ok(Kind::Nothing) => served | (s.cell != 0),
        Ok(_) => (cells <= s.cell) | own | !there | !sent_fits(s.kind, s.clock),
        Err(_) => true,
    }
}

// The place to hand to `seat_of`: no further than the tray's places.
pub fn slot_cell(v: Seat) -> usize
    ensures { result ≡ slot_cell v }
{
    let s = v.slot;
    s.cell as usize % 32
}

// How many of desk d's cells are the tray's: none if the desk is absent.
pub fn used_by(n: Counts, d: usize) -> usize
    ensures { result ≡ used_by n d }
{
    if d < n.desks as usize {
        return n.cells as usize;
    }
    0
}

// A record without its row, and the row's sum: whether the record is sound. (The kind by number, as the definition has it.)
#[tactic(auto, unfolding(crate::specs::Sums::record_fits))]
pub fn record_fits(t: Tray, desk: u8, v: Seat, row: Sum) -> bool
    ensures { result ≡ record_fits t desk v row }
{
    if !tray_sound(t) {
        return false;
    }
    let n = t.counts;
    let slot = v.slot;
    let p = t.places[slot_cell(v)];
    let beside = Sum::NONE.seat(true, n.cells, p.keeper == desk, v);
    (desk < n.desks)
        & (slot.kind <= Kind::WriteAsked as u8)
        & (beside.fits(n.desks) & row.fits(n.desks))
}

// How far a record's row is looked at as the tray's, before the tray is known to be sound.
pub fn row_count(n: Counts) -> usize
    ensures { result ≡ row_count n }
{
    (n.cells as usize).min(32)
}
