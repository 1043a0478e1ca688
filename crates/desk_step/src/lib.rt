#![tactic(auto)]
// A desk's three steps where its record lies: a step names the cells that it touches, and nothing large is copied. (Some have namesakes in `table_step`. What
// they share is `desk_acts`'; the rest differs in more than a type: here a message comes and an answer goes, there both are slots.)
ghost use Rattle.std.specs.Prelude.{◌≡◌, ◌≤◌};
ghost use Rattle.desk.specs.InPlace.{lost_in, loss_in};
ghost use Rattle.desk.specs.Rules.{answer_of, event_refusal, event_done, event_rule, serve_refusal, serve_done, serve_rule};
ghost use Rattle.desk.specs.Rules.{bring_refusal, bring_done, bring_rule};

use crate::allowed::{bring_allowed, event_allowed, serve_allowed};
use clock::Clock;
use desk::kinds::Kind;
use desk::{Answer, Cell, Event, Message, Record};
use desk_acts::{
    asked_message, brought, brought_answer, change_of, home, refused_answer, rows, served_answer,
    store, took,
};

mod allowed;

// The desk loses its copies strictly before a clock that it learns; how many. (The count's bound is asked for, here and below: soundness has shown it.)
fn lose(v: &mut Record, learnt: Clock) -> u32
    requires { v.old.tray.counts.cells ≤ 32 }
    ensures count { result ≡ loss_in v.old learnt }
    ensures left { v.new ≡ lost_in v.old learnt }
{
    // Read as a slice, the row shows the proof how long it is.
    let _row: &[Cell] = &v.row;
    // A copy of the tray's few bytes: lent itself after the row's part, it was a form that the borrow check doesn't cover.
    let t = v.tray;
    let d = v.desk as usize;
    rows::lose(&mut v.row[..t.counts.cells as usize], &t, d, learnt)
}

// An own event that nothing refuses.
#[tactic(auto, using(crate::proofs::Steps::event_room))]
fn own(v: &mut Record, e: Event) -> Answer
    requires { event_refusal v.old e ≡ 0 }
    ensures { (result ≡ answer_of (event_done v.old e)) × (v.new ≡ (event_done v.old e).after) }
{
    let d = v.desk as usize;
    let c = e.cell as usize;
    let kept = v.tray.places[c].kept_by(d);
    let change = change_of(kept, v.row[c], e);
    let reply = desk_acts::own(&mut v.seat, &mut v.row[c], kept, d, e);
    Answer {
        reply,
        message: asked_message(change, v.tray.counts, v.desk, v.seat.slot),
    }
}

// A request that nothing refuses. The keeper stores the write of one before the sweep, which goes past a kept cell, and answers from the cell after
// it: what was just stored is not read back at once.
#[tactic(auto, using(crate::proofs::Steps::serve_room))]
fn take(v: &mut Record, m: Message) -> Answer
    requires { serve_refusal v.old m ≡ 0 }
    ensures { (result ≡ answer_of (serve_done v.old m)) × (v.new ≡ (serve_done v.old m).after) }
{
    let c = m.cell as usize;
    // (An if, as in `desk_acts::ask`.)
    if m.kind == Kind::ReadAsked as u8 {
        return served_answer(0, m, v.row[c]);
    }
    let s = took(v.seat, m.clock);
    store(&mut v.seat, &mut v.row[c], s, m.word);
    let count = lose(v, m.clock);
    served_answer(count, m, v.row[c])
}

// An answer that nothing refuses. The named cell is no copy while the others are looked at.
#[tactic(auto, using(crate::proofs::Steps::bring_room))]
fn receive(v: &mut Record, m: Message) -> Answer
    requires { bring_refusal v.old m ≡ 0 }
    ensures { (result ≡ answer_of (bring_done v.old m)) × (v.new ≡ (bring_done v.old m).after) }
{
    let c = m.cell as usize;
    v.row[c] = Cell::NONE;
    let count = lose(v, m.clock);
    v.row[c] = brought(v.seat.served, m.word, m.clock);
    v.seat = home(v.seat, m.clock);
    brought_answer(count, m)
}

// Read, write and drop for this desk, whatever desk the event names. (This and the two below end alike: one function over them would take a check and a step
// as closures, and be no shorter.)
#[tactic(auto, unfolding(desk::specs::Rules::event_rule, theory_refusals::specs::Refusals::unless))]
pub fn event(v: &mut Record, e: Event) -> Answer
    ensures { (result ≡ answer_of (event_rule v.old e)) × (v.new ≡ (event_rule v.old e).after) }
{
    match event_allowed(v, e) {
        Ok(()) => own(v, e),
        Err(r) => refused_answer(r.number()),
    }
}

// A request of another desk for a cell that this desk keeps.
#[tactic(auto, unfolding(desk::specs::Rules::serve_rule, theory_refusals::specs::Refusals::unless))]
pub fn serve(v: &mut Record, m: Message) -> Answer
    ensures { (result ≡ answer_of (serve_rule v.old m)) × (v.new ≡ (serve_rule v.old m).after) }
{
    match serve_allowed(v, m) {
        Ok(()) => take(v, m),
        Err(r) => refused_answer(r.number()),
    }
}

// The answer to what this desk asked comes home.
#[tactic(auto, unfolding(desk::specs::Rules::bring_rule, theory_refusals::specs::Refusals::unless))]
pub fn bring(v: &mut Record, m: Message) -> Answer
    ensures { (result ≡ answer_of (bring_rule v.old m)) × (v.new ≡ (bring_rule v.old m).after) }
{
    match bring_allowed(v, m) {
        Ok(()) => receive(v, m),
        Err(r) => refused_answer(r.number()),
    }
}
