#![tactic(auto)]
// Reading a frame: the message that a row of bytes starts with.
ghost use Rattle.std.specs.Prelude.{◌≡◌, ◌+◌, ◌*◌, ◌≤◌, length, take, drop, IfOk};
ghost use Rattle.theory_refusals.specs.Numbers.{code_of};
ghost use Rattle.spelling.specs.Bytes.{numeral};
ghost use Rattle.frame.specs.Frame.{length_in, message_in, read_code, read_rule};

use clock::Clock;
use desk::Message;
use frame::{Reading, carries, fault};
use spelling::Spelled;
use theory_refusals::Refusal;

// The message whose frame the bytes start with. What follows the frame is another's.
pub fn read(s: &[u8]) -> Reading
    ensures { result ≡ read_rule s.now }
{
    match framed(s) {
        Ok(c) => Reading {
            code: 0,
            message: message_in(s, c),
            used: 7 + 4 * c,
        },
        Err(refusal) => Reading {
            code: refusal.number(),
            message: Message::NONE,
            used: 0,
        },
    }
}

// How many of the word and the clock's numbers the frame carries that the bytes start with.
#[tactic(auto, using(crate::proofs::Told::no_length, crate::proofs::Told::cut, crate::proofs::Told::headless, crate::proofs::Told::other_version, crate::proofs::Told::faulty_head, crate::proofs::Told::wrong_size, crate::proofs::Told::right_size))]
fn framed(s: &[u8]) -> Result<usize, Refusal>
    ensures code { code_of result ≡ read_code s.now }
    ensures ends { IfOk result (λ c. (7 + 4 * c ≤ length s.now) × (7 + 4 * c ≡ 2 + length_in s.now)) }
{
    if s.len() < 2 {
        return Err(Refusal::FrameCut);
    }
    let size = u16::at(s, 0) as usize;
    if s.len() - 2 < size {
        return Err(Refusal::FrameCut);
    }
    if size < 5 {
        return Err(Refusal::FrameLength);
    }
    if s[2] != 1 {
        return Err(Refusal::FrameVersion);
    }
    let kind = s[3];
    let desks = s[4];
    fault(kind, desks, s[5], s[6])?;
    let c = carries(kind, desks);
    if size != 5 + 4 * c {
        return Err(Refusal::FrameLength);
    }
    Ok(c)
}

fn message_in(s: &[u8], c: usize) -> Message
    requires { 7 + 4 * c ≤ length s.now }
    ensures { result ≡ message_in (take (7 + 4 * c) s.now) }
{
    Message {
        kind: s[3],
        desks: s[4],
        desk: s[5],
        cell: s[6],
        word: number(s, c, 0),
        clock: Clock {
            // written out: with a loop over the array, which the compiler unrolls, a full answer took 1.2 times as long to read
            n: [
                number(s, c, 1),
                number(s, c, 2),
                number(s, c, 3),
                number(s, c, 4),
                number(s, c, 5),
                number(s, c, 6),
                number(s, c, 7),
                number(s, c, 8),
            ],
        },
    }
}

// Of the word and the clock's numbers the one at place k, or 0 where the frame carries fewer. (c beside the bytes: others may follow the frame.)
#[tactic(auto, using(frame::specs::Laws::number_past))]
fn number(s: &[u8], c: usize, k: usize) -> u32
    requires { 7 + 4 * c ≤ length s.now }
    ensures { result ≡ numeral (take 4 (drop (7 + 4 * k) (take (7 + 4 * c) s.now))) }
{
    if c <= k {
        return 0;
    }
    u32::at(s, 7 + 4 * k)
}
