#![tactic(auto)]
// What a seat refuses, for the desk's own events and the table's.
ghost use Rattle.std.specs.Prelude.{◌≡◌, ◌<◌, ◌≤◌};
ghost use Rattle.theory_refusals.specs.Numbers.{code_of};
ghost use Rattle.theory_refusals.specs.Refusals.{first_of};
ghost use Rattle.desk.specs.Desk.{is_asked, is_answered, is_own};
ghost use Rattle.desk.specs.Rules.{seat_lines};

use desk::kinds::{Act, Kind};
use desk::sound::{keeps, waits};
use desk::{Event, Seat, Slot, Tray};
use theory_refusals::Refusal;

// The first refusal from 11 on that applies, in the order of 01's table. For the desk's events and the table's. (It asks for a desk and a cell count within
// bounds: soundness has shown them, and what is lent has any numbers.)
#[tactic(auto, unfolding(desk::specs::Rules::seat_lines, theory_refusals::specs::Refusals::first_of, desk::specs::Desk::is_own))]
pub fn seat_refusal(t: Tray, desk: u8, s: Seat, e: Event) -> Result<(), Refusal>
    requires { (desk < 8) × (t.counts.cells ≤ 32) }
    ensures { code_of result ≡ first_of (seat_lines t desk s e) }
{
    let own = is_own(e);
    if own & (t.counts.cells as u32 <= e.cell) {
        return Err(Refusal::NoSuchCell);
    }
    if own & waits(s.slot) {
        return Err(Refusal::DeskWaits);
    }
    // (The clock alone is looked up by a number: of the whole seat a copy would stand on the stack.)
    let clock = s.clock;
    match Act::try_from(e.kind) {
        Ok(Act::Take) if !is_asked(s.slot) => Err(Refusal::NothingThere),
        Ok(Act::Bring) if !is_answered(s.slot) => Err(Refusal::NothingThere),
        Ok(Act::Drop) if keeps(t, desk, e.cell as usize) => Err(Refusal::CellKept),
        Ok(Act::Write) if clock.n[desk as usize] == u32::MAX => Err(Refusal::NoNumberLeft),
        _ => Ok(()),
    }
}

#[tactic(auto, unfolding(desk::specs::Desk::is_own))]
pub fn is_own(e: Event) -> bool
    ensures { result ≡ is_own e }
{
    matches!(
        Act::try_from(e.kind),
        Ok(Act::Read | Act::Write | Act::Drop)
    )
}

#[tactic(auto, unfolding(desk::specs::Desk::is_asked))]
fn is_asked(s: Slot) -> bool
    ensures { result ≡ is_asked s }
{
    matches!(
        Kind::try_from(s.kind),
        Ok(Kind::ReadAsked | Kind::WriteAsked)
    )
}

#[tactic(auto, unfolding(desk::specs::Desk::is_answered))]
fn is_answered(s: Slot) -> bool
    ensures { result ≡ is_answered s }
{
    matches!(
        Kind::try_from(s.kind),
        Ok(Kind::ReadAnswered | Kind::WriteAnswered)
    )
}
