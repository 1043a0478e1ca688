#![tactic(auto)]
// The five events where the table lies: a step names the cells and seats that it touches, and nothing large is copied.
ghost use Rattle.std.specs.Prelude.{true, ◌≡◌, ◌<◌, ◌≤◌};
ghost use Rattle.theory_refusals.specs.Numbers.{code_of};
ghost use Rattle.desk_acts.specs.Own.{HasNumber};
ghost use Rattle.table.specs.Changes.{lost_of, lost_count};
ghost use Rattle.table.specs.InPlace.{take_write_in, take_in, take_reply, bring_in, bring_reply, own_in, own_reply_in};
ghost use Rattle.table.specs.Rows.{Sized};
ghost use Rattle.table.specs.Rules.{refusal as refusal_def, done as done_def, event_rule};
ghost use Rattle.table.specs.Sound.{table_sound};
ghost use Rattle.table.specs.Table.{seat_of, slot_of, keeper_for};

use clock::Clock;
use desk::kinds::{Act, Kind};
use desk::{Cell, Event, Reply, Seat};
use desk_acts::{
    answering, at, bring_reply, brought, dropped, home, refused, rows, store, took, unplaced,
};
use desk_refusals::seat_refusal;
use table::Table;
use table_sound::sound;
use theory_refusals::Refusal;

// Desk d loses its copies strictly before a clock that it learns; how many. (This and what follows has an index of a desk's number and of a cell, and asks
// for their bounds: soundness gives them, and a type that carried them would have to be made, with the same proofs, at each call.)
fn lose(t: &mut Table, d: usize, learnt: Clock) -> u32
    requires { (d < 8) × (t.old.tray.counts.cells ≤ 32) }
    ensures { (result ≡ lost_count t.old d learnt) × (t.new ≡ lost_of t.old d learnt) }
{
    let n = t.tray.counts.cells as usize;
    rows::lose(&mut t.cells[d * 32..d * 32 + n], &t.tray, d, learnt)
}

// Read, write and drop, by what they change.
fn own(t: &mut Table, d: usize, c: usize, e: Event) -> Reply
    requires { (d < 8) × (c < 32) × (e.cell < 32) × HasNumber e (seat_of t.old d).clock d }
    ensures { (result ≡ own_reply_in t.old d c e) × (t.new ≡ own_in t.old d c e) }
{
    let kept = t.tray.places[c].kept_by(d);
    desk_acts::own(&mut t.seats[d], &mut t.cells[at(d, c)], kept, d, e)
}

// Keeper k takes the write that seat s asks for.
fn take_write(t: &mut Table, k: usize, c: usize, s: Seat) -> u32
    requires { (k < 8) × (c < 32) × (t.old.tray.counts.cells ≤ 32) }
    ensures { (result ≡ lost_count t.old k s.slot.clock) × (t.new ≡ take_write_in t.old k c s) }
{
    let slot = s.slot;
    let count = lose(t, k, slot.clock);
    let keeper = took(t.seats[k], slot.clock);
    store(&mut t.seats[k], &mut t.cells[at(k, c)], keeper, slot.word);
    count
}

// The keeper serves desk d's request, and the answer stands in the slot of the desk that asked.
fn take(t: &mut Table, d: usize) -> Reply
    requires { (d < 8) × ((slot_of t.old d).cell < 32) × ((slot_of t.old d).kind < 3) × (keeper_for t.old d < 8) × (t.old.tray.counts.cells ≤ 32) }
    ensures { (result ≡ take_reply t.old d) × (t.new ≡ take_in t.old d) }
{
    let s = t.seats[d];
    let slot = s.slot;
    let c = slot.cell as usize;
    let k = t.tray.places[c].keeper as usize;
    // (An if, as in `desk_acts::ask`.)
    let count = if slot.kind == Kind::WriteAsked as u8 {
        take_write(t, k, c, s)
    } else {
        0
    };
    t.seats[d] = answering(s, t.cells[at(k, c)]);
    dropped(count)
}

// Desk d receives its answer. The named cell is no copy while the others are looked at.
fn bring(t: &mut Table, d: usize) -> Reply
    requires { (d < 8) × ((slot_of t.old d).cell < 32) × (t.old.tray.counts.cells ≤ 32) }
    ensures { (result ≡ bring_reply t.old d) × (t.new ≡ bring_in t.old d) }
{
    let s = t.seats[d];
    let slot = s.slot;
    let i = at(d, slot.cell as usize);
    t.cells[i] = Cell::NONE;
    let count = lose(t, d, slot.clock);
    t.cells[i] = brought(s.served, slot.word, slot.clock);
    t.seats[d] = home(s, slot.clock);
    bring_reply(slot.kind, slot.word, slot.clock, count)
}

// The first refusal of a sound table, in the order of 01's table.
fn refusal(t: &Table, e: Event) -> Result<(), Refusal>
    requires { table_sound t.now ≡ true }
    ensures code { code_of result ≡ refusal_def t.now e }
    ensures sized { code_of result ≡ 0 → Sized t.now }
{
    unplaced(t.tray.counts, e)?;
    seat_refusal(t.tray, e.desk as u8, t.seats[e.desk as usize], e)
}

// An event that nothing refuses.
fn done(t: &mut Table, e: Event) -> Reply
    requires { (refusal_def t.old e ≡ 0) × Sized t.old }
    ensures { (result ≡ (done_def t.old e).reply) × (t.new ≡ (done_def t.old e).after) }
{
    let d = e.desk as usize;
    match Act::try_from(e.kind) {
        Ok(Act::Take) => take(t, d),
        Ok(Act::Bring) => bring(t, d),
        _ => own(t, d, e.cell as usize, e),
    }
}

// An event on a table that is known to be sound.
pub fn step(t: &mut Table, e: Event) -> Reply
    requires { table_sound t.old ≡ true }
    ensures { (result ≡ (event_rule t.old e).reply) × (t.new ≡ (event_rule t.old e).after) }
{
    match refusal(t, e) {
        Ok(()) => done(t, e),
        Err(r) => refused(r.number()),
    }
}

// 1 Read, 2 Write, 3 Take, 4 Bring, 5 Drop.
pub fn event(t: &mut Table, e: Event) -> Reply
    ensures { (result ≡ (event_rule t.old e).reply) × (t.new ≡ (event_rule t.old e).after) }
{
    if !sound(t) {
        return refused(Refusal::NotSound.number());
    }
    step(t, e)
}
