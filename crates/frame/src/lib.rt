#![tactic(auto)]
// Frames: one message as one row of bytes, and back. Here is what both ways share; reading and writing stand in the crates above.
ghost use Rattle.std.specs.Prelude.{◌≡◌};
ghost use Rattle.theory_refusals.specs.Numbers.{code_of};
ghost use Rattle.frame.specs.Frame.{carried, fault_of};

use desk::Message;
use desk::kinds::Kind;
use theory_refusals::Refusal;

// What reading gives: code 0, the message and how many bytes its frame has; or a refusal with an all-zero message and 0 used. (For C, as `Written` is: it
// has no Result.)
#[repr(C)]
#[derive(Clone, Copy)]
pub struct Reading {
    pub code: u32,
    pub message: Message,
    pub used: usize,
}

// What writing tells: code 0 and how many bytes the frame has; or a refusal and 0 used.
#[repr(C)]
#[derive(Clone, Copy)]
pub struct Written {
    pub code: u32,
    pub used: usize,
}

// What reading and writing refuse alike. (Four bytes and no `Message`: reading has none yet.)
#[tactic(auto, unfolding(crate::specs::Frame::fault_lines, theory_refusals::specs::Refusals::first_of))]
pub fn fault(kind: u8, desks: u8, desk: u8, cell: u8) -> Result<(), Refusal>
    ensures { code_of result ≡ fault_of kind desks desk cell }
{
    if Kind::try_from(kind)? == Kind::Nothing {
        return Err(Refusal::FrameKind);
    }
    if !(2..=8).contains(&desks) {
        return Err(Refusal::FrameDeskCount);
    }
    if desks <= desk {
        return Err(Refusal::FrameDesk);
    }
    if 31 < cell {
        return Err(Refusal::FrameCell);
    }
    Ok(())
}

// How many a frame carries of the word and the clock's numbers: a read asked has none of them.
#[tactic(auto, unfolding(crate::specs::Frame::carried))]
pub fn carries(kind: u8, desks: u8) -> usize
    ensures { result ≡ carried kind desks }
{
    // (An if, as in `desk_acts::ask`.)
    if kind == Kind::ReadAsked as u8 {
        return 0;
    }
    1 + desks as usize
}
