#![tactic(auto)]
// Starting: a tray as it is set up, and a desk's fresh record on it. The table sets itself up from the same parts.
ghost use Rattle.std.specs.Prelude.{◌≡◌, ◌≤◌};
ghost use Rattle.theory_refusals.specs.Numbers.{code_of};
ghost use Rattle.desk.specs.Start.{fresh_record, fresh_tray, keepers_right, no_record, set_up_refusal, start_refusal, start_rule};

use desk::{Cell, Counts, Place, Plan, Record, Seat, Tray};
use theory_refusals::Refusal;

// A desk's record for any plan and any number, in place of the one that is lent. (A code: `start_rule` has it, and `cwmorlais_desk_start` hands it to C.)
pub fn start(v: &mut Record, plan: Plan, desk: u32) -> u32
    ensures { (result ≡ (start_rule plan desk).code) × (v.new ≡ (start_rule plan desk).«record») }
{
    match check_start(plan, desk) {
        Ok(()) => {
            fresh(v, tray(plan), desk as u8);
            0
        }
        Err(r) => {
            clear(v);
            r.number()
        }
    }
}

// All zero: what a refusal leaves, and what a fresh record is made from. (Part by part: stored as one constant it is first built beside the record.)
#[tactic(auto, unfolding(desk::specs::Start::no_record, desk::specs::Start::no_tray))]
fn clear(v: &mut Record)
    ensures { v.new ≡ no_record }
{
    v.tray = Tray::NONE;
    v.desk = 0;
    v.seat = Seat::NONE;
    v.row = [Cell::NONE; 32];
}

// The desk holds the cells that it keeps, blank. (It and `keepers_right` ask for the count's bound, which `check_plan` has shown: a plan has any number.)
fn fresh(v: &mut Record, t: Tray, desk: u8)
    requires { t.counts.cells ≤ 32 }
    ensures { v.new ≡ fresh_record t desk }
{
    clear(v);
    v.tray = t;
    v.desk = desk;
    // No `zip` of the row and the places: of `iter_mut().zip(..)` the proof knows no values.
    for (c, p) in t.places[..t.counts.cells as usize].iter().enumerate() {
        if p.kept_by(desk as usize) {
            v.row[c] = Cell::BLANK;
        }
    }
}

// What setting up refuses, and a number that is no desk.
#[tactic(auto, unfolding(desk::specs::Start::start_refusal, desk::specs::Start::start_lines, desk::specs::Start::set_up_refusal, desk::specs::Start::set_up_lines, theory_refusals::specs::Refusals::first_of))]
fn check_start(plan: Plan, desk: u32) -> Result<(), Refusal>
    ensures { code_of result ≡ start_refusal plan desk }
{
    check_plan(plan)?;
    if plan.desks <= desk {
        return Err(Refusal::NoSuchDesk);
    }
    Ok(())
}

// Whether every keeper below the cell count is a desk. (By number, here and in `tray`: lent as a slice, the keepers of a plan that comes by value are copied
// with it first, by a `memcpy` that the library would then need from whoever links it, and with 80 bytes more stack.)
fn keepers_right(plan: Plan) -> bool
    requires { plan.cells ≤ 32 }
    ensures { result ≡ keepers_right plan }
{
    let cells = plan.cells as usize;
    let mut right = true;
    for c in 0..cells {
        right &= plan.keepers[c] < plan.desks;
    }
    right
}

// What setting up refuses.
#[tactic(auto, unfolding(desk::specs::Start::set_up_refusal, desk::specs::Start::set_up_lines, theory_refusals::specs::Refusals::first_of))]
pub fn check_plan(plan: Plan) -> Result<(), Refusal>
    ensures { code_of result ≡ set_up_refusal plan }
{
    let (desks, cells) = (plan.desks, plan.cells);
    if !(1..=8).contains(&desks) {
        return Err(Refusal::DeskCount);
    }
    if !(1..=32).contains(&cells) {
        return Err(Refusal::CellCount);
    }
    if !keepers_right(plan) {
        return Err(Refusal::KeeperNoDesk);
    }
    Ok(())
}

pub fn tray(plan: Plan) -> Tray
    requires { set_up_refusal plan ≡ 0 }
    ensures { result ≡ fresh_tray plan }
{
    let cells = plan.cells as usize;
    let mut places = [Place::NONE; 32];
    for c in 0..cells {
        places[c].keeper = plan.keepers[c] as u8;
    }
    Tray {
        counts: Counts {
            desks: plan.desks as u8,
            cells: plan.cells as u8,
        },
        places,
    }
}
