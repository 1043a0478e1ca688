#![tactic(auto)]
// What a desk's steps make of a seat and of a cell: by value, and an own event, a store and a sweep where they lie. Record and table are thin functions
// over these.
ghost use Rattle.std.specs.Prelude.{◌≡◌, ◌+◌, ◌*◌, ◌<◌};
ghost use Rattle.clock.specs.Clock.{number, raised};
ghost use Rattle.desk.specs.Desk.{held_cell, answer_kind};
ghost use Rattle.desk.specs.Parts.{change_of, asking_seat, read_reply, write_reply, own_reply, took_seat, answered_seat, home_seat, brought_cell, brought_reply, reply_of, loses_if};
ghost use Rattle.desk.specs.Parts.{refused_answer, asked_message, served_answer, brought_answer};
ghost use Rattle.desk.specs.Rules.{shown_code, refused_reply, place_lines};
ghost use Rattle.desk_acts.specs.Change.{change_number, code_number};
ghost use Rattle.desk_acts.specs.Own.{HasNumber, own_seat, own_cell};
ghost use Rattle.theory_refusals.specs.Numbers.{code_of};
ghost use Rattle.theory_refusals.specs.Refusals.{first_of};

pub mod rows;

use clock::Clock;
use desk::kinds::{Act, Kind};
use desk::sound::{is_blank, waits};
use desk::{Answer, Cell, Counts, Event, Message, Reply, Seat, Slot};
use theory_refusals::Refusal;

// What an own event changes.
#[derive(Clone, Copy, Debug, PartialEq, Eq)]
pub enum Change {
    Nothing = 0,
    Asks = 1,
    Stores = 2,
    GivesUp = 3,
}

// What the reply to an event that is done tells: it is done, it is asked of the keeper, or what is read is blank.
#[derive(Clone, Copy, Debug, PartialEq, Eq)]
pub enum Code {
    Done = 0,
    Asked = 1,
    Blank = 2,
}

// Where desk d's cell c stands in a table.
pub fn at(d: usize, c: usize) -> usize
    requires { (d < 8) × (c < 32) }
    ensures { result ≡ d * 32 + c }
{
    d * 32 + c
}

fn shown(blank: bool) -> Code
    ensures { code_number result ≡ shown_code blank }
{
    if blank { Code::Blank } else { Code::Done }
}

// The reply to an event that is done.
fn reply(code: Code, value: u32, count: u32) -> Reply
    ensures { result ≡ reply_of (code_number code) value count }
{
    Reply {
        code: code as u32,
        value,
        count,
    }
}

// Whether a copy is lost to a learnt clock.
pub fn is_lost(kept: bool, learnt: Clock, x: Cell) -> bool
    ensures { result ≡ loses_if kept learnt x }
{
    x.held && !kept && x.stamp.before(learnt)
}

#[tactic(auto, unfolding(desk::specs::Parts::change_of))]
pub fn change_of(kept: bool, x: Cell, e: Event) -> Change
    ensures { change_number result ≡ change_of kept x e }
{
    match Act::try_from(e.kind) {
        Ok(Act::Read) if x.held => Change::Nothing,
        Ok(Act::Write) if kept => Change::Stores,
        Ok(Act::Read | Act::Write) => Change::Asks,
        _ => Change::GivesUp,
    }
}

// The reply to an own event.
#[tactic(auto, unfolding(desk::specs::Parts::own_reply))]
pub fn own_reply(kept: bool, x: Cell, e: Event) -> Reply
    ensures { result ≡ own_reply kept x e }
{
    match Act::try_from(e.kind) {
        Ok(Act::Read) => read_reply(x),
        Ok(Act::Write) => write_reply(kept, e.word),
        _ => reply(Code::Done, 0, u32::from(x.held & !kept)),
    }
}

#[tactic(auto, unfolding(desk::specs::Parts::read_reply))]
fn read_reply(x: Cell) -> Reply
    ensures { result ≡ read_reply x }
{
    if !x.held {
        return reply(Code::Asked, 0, 0);
    }
    reply(shown(is_blank(x.stamp)), x.word, 0)
}

#[tactic(auto, unfolding(desk::specs::Parts::write_reply))]
fn write_reply(kept: bool, word: u32) -> Reply
    ensures { result ≡ write_reply kept word }
{
    if kept {
        reply(Code::Done, word, 0)
    } else {
        reply(Code::Asked, 0, 0)
    }
}

// One desk's number of a clock, one higher.
#[inline(always)]
#[tactic(auto, unfolding(clock::specs::Clock::raised))]
fn raise(clock: &mut Clock, desk: usize)
    requires { (desk < 8) × (number clock.old desk ≡ 4294967295 → ⊥) }
    ensures { clock.new ≡ raised clock.old desk }
{
    clock.n[desk] += 1;
}

// The request of a read or a write stands in the slot of the desk that asks. (In place, as `raise` is: on a copy of the clock an event's stack is a third
// larger. What has a desk's number for an index asks for one below 8 here and in the crates above: C and lent memory have it as a plain number, and a type
// of its own would have to be made from one, with the same proof, at each call.)
#[inline(always)]
#[tactic(auto, unfolding(desk::specs::Parts::asked_for))]
fn ask(seat: &mut Seat, desk: usize, e: Event)
    requires { (desk < 8) × (e.cell < 32) × HasNumber e seat.old.clock desk × ((e.kind ≡ 1 → ⊥) → e.kind ≡ 2) }
    ensures { seat.new ≡ asking_seat seat.old desk e }
{
    let cell = e.cell as u8;
    seat.served = false;
    // (An if: one kind against the rest, of which a match would say no more. So too where `desk_step`, `table_step` and the frames ask for one kind.)
    if e.kind == Act::Read as u32 {
        seat.slot = Slot {
            kind: Kind::ReadAsked as u8,
            cell,
            ..Slot::NONE
        };
        return;
    }
    seat.slot = Slot {
        kind: Kind::WriteAsked as u8,
        cell,
        word: e.word,
        clock: seat.clock,
    };
    raise(&mut seat.slot.clock, desk);
}

fn held(word: u32, stamp: Clock) -> Cell
    ensures { result ≡ held_cell word stamp }
{
    Cell {
        held: true,
        word,
        stamp,
    }
}

// A word stored in a cell under the clock of the new seat.
pub fn store(seat: &mut Seat, cell: &mut Cell, s: Seat, word: u32)
    ensures { (seat.new ≡ s) × (cell.new ≡ held_cell word s.clock) }
{
    *seat = s;
    *cell = held(word, s.clock);
}

// What an own event makes of its desk's seat and of the named cell. Only what changes is stored, and an empty cell as the constant.
#[inline(always)]
#[tactic(auto, unfolding(crate::specs::Own::own_seat, crate::specs::Own::own_cell, desk::specs::Parts::change_of))]
pub fn own(seat: &mut Seat, cell: &mut Cell, kept: bool, desk: usize, e: Event) -> Reply
    requires { (desk < 8) × (e.cell < 32) × HasNumber e seat.old.clock desk }
    ensures reply { result ≡ own_reply kept cell.old e }
    ensures seat { seat.new ≡ own_seat kept cell.old e desk seat.old }
    ensures cell { cell.new ≡ own_cell kept cell.old e desk seat.old }
{
    let reply = own_reply(kept, *cell, e);
    match change_of(kept, *cell, e) {
        Change::Nothing => {}
        Change::Asks => ask(seat, desk, e),
        Change::Stores => {
            raise(&mut seat.clock, desk);
            *cell = held(e.word, seat.clock);
        }
        Change::GivesUp => *cell = Cell::NONE,
    }
    reply
}

// The keeper's seat once it has taken a write: it learns the sent clock, and *served* goes on if it waits.
pub fn took(s: Seat, sent: Clock) -> Seat
    ensures { result ≡ took_seat s sent }
{
    Seat {
        clock: s.clock.merge(sent),
        served: s.served | waits(s.slot),
        ..s
    }
}

// The kind of the answer to a request. By number, since its clause `answer_kind` holds of an empty slot's 0 too, which no Kind answers. (It and two below
// ask for a request's kind: slots and messages have any number, and 13 and 15 have shown it.)
pub fn answer_kind(asked: u8) -> u8
    requires { asked < 3 }
    ensures { result ≡ answer_kind asked }
{
    asked + 2
}

// The asker's seat, with what the keeper's cell answers.
pub fn answering(s: Seat, x: Cell) -> Seat
    requires { s.slot.kind < 3 }
    ensures { result ≡ answered_seat s x }
{
    let slot = Slot {
        kind: answer_kind(s.slot.kind),
        word: x.word,
        clock: x.stamp,
        ..s.slot
    };
    Seat { slot, ..s }
}

// The cell that an answer names, once it is brought: held unless the desk served a write meanwhile.
pub fn brought(served: bool, word: u32, stamp: Clock) -> Cell
    ensures { result ≡ brought_cell served word stamp }
{
    if served {
        return Cell::NONE;
    }
    held(word, stamp)
}

// The seat of a desk that has its answer.
pub fn home(s: Seat, stamp: Clock) -> Seat
    ensures { result ≡ home_seat s stamp }
{
    Seat {
        clock: s.clock.merge(stamp),
        slot: Slot::NONE,
        served: false,
    }
}

pub fn bring_reply(kind: u8, word: u32, stamp: Clock, count: u32) -> Reply
    ensures { result ≡ brought_reply kind word stamp count }
{
    let blank = (kind == Kind::ReadAnswered as u8) & is_blank(stamp);
    reply(shown(blank), word, count)
}

// ---- replies. (The code is a number: C reads it, and any may be told.)
pub fn refused(code: u32) -> Reply
    ensures { result ≡ refused_reply code }
{
    Reply {
        code,
        value: 0,
        count: 0,
    }
}

pub fn dropped(count: u32) -> Reply
    ensures { result ≡ reply_of 0 0 count }
{
    reply(Code::Done, 0, count)
}

// The table's first refusals: an event of no kind, and a desk that is not there.
#[tactic(auto, unfolding(theory_refusals::specs::Refusals::first_of))]
pub fn unplaced(n: Counts, e: Event) -> Result<(), Refusal>
    ensures { code_of result ≡ first_of (place_lines n e) }
{
    Act::try_from(e.kind)?;
    if n.desks as u32 <= e.desk {
        return Err(Refusal::NoSuchDesk);
    }
    Ok(())
}

// ---- answers. (A number again, as in `refused`.)
pub fn refused_answer(code: u32) -> Answer
    ensures { result ≡ refused_answer code }
{
    Answer {
        reply: refused(code),
        message: Message::NONE,
    }
}

// A desk that asks sends what stands in its slot. (Six fields written out: a `From` would have to take the desk counts and number too, and be no shorter.)
#[tactic(auto, unfolding(desk::specs::Parts::asked_message))]
pub fn asked_message(change: Change, n: Counts, desk: u8, s: Slot) -> Message
    ensures { result ≡ asked_message (change_number change) n desk s }
{
    // (An if, as in `ask`.)
    if change != Change::Asks {
        return Message::NONE;
    }
    Message {
        kind: s.kind,
        desks: n.desks,
        desk,
        cell: s.cell,
        word: s.word,
        clock: s.clock,
    }
}

// To a request, with what the keeper's cell now has.
pub fn served_answer(count: u32, m: Message, x: Cell) -> Answer
    requires { m.kind < 3 }
    ensures { result ≡ served_answer count m x }
{
    let message = Message {
        kind: answer_kind(m.kind),
        word: x.word,
        clock: x.stamp,
        ..m
    };
    Answer {
        reply: dropped(count),
        message,
    }
}

pub fn brought_answer(count: u32, m: Message) -> Answer
    ensures { result ≡ brought_answer count m }
{
    Answer {
        reply: bring_reply(m.kind, m.word, m.clock, count),
        message: Message::NONE,
    }
}
