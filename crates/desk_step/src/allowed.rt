// What refuses a desk's steps: the first line that applies, in the order of 01's table. Only of a sound record is anything else looked at.
ghost use Rattle.std.specs.Prelude.{true, ◌≡◌, ◌≤◌, ◌<◌};
ghost use Rattle.theory_refusals.specs.Numbers.{code_of};
ghost use Rattle.desk.specs.Rules.{event_refusal, serve_refusal, bring_refusal, in_tray, request_fits, answer_fits};
ghost use Rattle.desk.specs.Sound.{is_sound};

use desk::kinds::Kind;
use desk::sound::{keeps, sent_fits, waits, word_fits};
use desk::{Event, Message, Place, Record, Tray};
use desk_acts::answer_kind;
use desk_refusals::{is_own, seat_refusal};
use desk_sums::rows::row_sum;
use desk_sums::{Sum, record_fits, row_count};
use theory_refusals::Refusal;

// (The same first line in all three: as `sound(v)?` it was no shorter, and soundness would have to be told as a Result.)
#[tactic(auto, unfolding(desk::specs::Rules::event_lines, theory_refusals::specs::Refusals::first_of))]
pub fn event_allowed(v: &Record, e: Event) -> Result<(), Refusal>
    ensures { code_of result ≡ event_refusal v.now e }
{
    if !sound(v) {
        return Err(Refusal::NotSound);
    }
    if !is_own(e) {
        return Err(Refusal::NoSuchEvent);
    }
    seat_refusal(v.tray, v.desk, v.seat, e)
}

#[tactic(auto, unfolding(desk::specs::Rules::serve_lines, theory_refusals::specs::Refusals::first_of))]
pub fn serve_allowed(v: &Record, m: Message) -> Result<(), Refusal>
    ensures { code_of result ≡ serve_refusal v.now m }
{
    if !sound(v) {
        return Err(Refusal::NotSound);
    }
    if !request_fits(v, m) {
        return Err(Refusal::MessageUnfit);
    }
    Ok(())
}

#[tactic(auto, unfolding(desk::specs::Rules::bring_lines, theory_refusals::specs::Refusals::first_of))]
pub fn bring_allowed(v: &Record, m: Message) -> Result<(), Refusal>
    ensures { code_of result ≡ bring_refusal v.now m }
{
    if !sound(v) {
        return Err(Refusal::NotSound);
    }
    if !waits(v.seat.slot) {
        return Err(Refusal::NothingThere);
    }
    if !answer_fits(v, m) {
        return Err(Refusal::MessageUnfit);
    }
    Ok(())
}

// The row is summed, and then the sum is looked at with what stands beside the row.
fn sound(v: &Record) -> bool
    ensures is { result ≡ is_sound v.now }
    ensures bounds { result ≡ true → (v.now.desk < 8) × (v.now.tray.counts.cells ≤ 32) × (v.now.seat.slot.kind < 3) }
{
    // Read as a slice, the places show the proof how many they are.
    let _places: &[Place] = &v.tray.places;
    let n = row_count(v.tray.counts);
    let row = row_sum(&v.row, &v.tray, v.desk as usize, n, Sum::NONE);
    record_fits(v.tray, v.desk, v.seat, row)
}

// Whether a message has the tray's desk count, and no clock number past it.
#[tactic(auto, unfolding(desk::specs::Rules::in_tray))]
fn in_tray(t: &Tray, m: Message) -> bool
    ensures { result ≡ in_tray t.now m }
{
    let desks = t.counts.desks;
    m.desks == desks && m.clock.within(desks)
}

#[tactic(auto, unfolding(desk::specs::Rules::request_fits, desk::specs::Desk::keeps))]
fn request_fits(v: &Record, m: Message) -> bool
    requires { v.now.tray.counts.cells ≤ 32 }
    ensures { result ≡ request_fits v.now.tray v.now.desk m }
{
    let n = v.tray.counts;
    m.cell < n.cells
        && in_tray(&v.tray, m)
        && sent_fits(m.kind, m.clock)
        && matches!(
            Kind::try_from(m.kind),
            Ok(Kind::ReadAsked | Kind::WriteAsked)
        )
        && (m.desk < n.desks && m.desk != v.desk)
        && keeps(v.tray, v.desk, m.cell as usize)
}

#[tactic(auto, unfolding(desk::specs::Rules::answer_fits))]
fn answer_fits(v: &Record, m: Message) -> bool
    requires { v.now.seat.slot.kind < 3 }
    ensures { result ≡ answer_fits v.now.tray v.now.desk v.now.seat.slot m }
{
    let s = v.seat.slot;
    in_tray(&v.tray, m)
        && word_fits(m.word, m.clock)
        && (m.desk == v.desk && m.cell == s.cell && m.kind == answer_kind(s.kind))
}
