#![tactic(auto)]
// Writing a frame: a message as a row of bytes.
ghost use Rattle.std.specs.Prelude.{◌≡◌, ◌∷◌, ◌++◌, ◌+◌, ◌*◌, ◌≤◌, length, take, drop};
ghost use Rattle.spelling.specs.Bytes.{spell, put};
ghost use Rattle.frame.specs.Frame.{widths, fault_in, write_rule, output_rule};
ghost use Rattle.frame.specs.Laws.{head_of};
ghost use Rattle.frame_write.specs.Told.{told};

use clock::Clock;
use desk::Message;
use desk::kinds::Kind;
use frame::{Written, fault};
use spelling::{Spelled, put_fours};
use theory_refusals::Refusal;

// The frame of a message, at the start of the output. A refusal leaves every byte as it was.
pub fn write(out: &mut [u8], m: &Message) -> Written
    ensures { (result ≡ write_rule m.now out.old) × (out.new ≡ output_rule m.now out.old) }
{
    match framed(out, m) {
        Ok(used) => Written { code: 0, used },
        Err(refusal) => Written {
            code: refusal.number(),
            used: 0,
        },
    }
}

// How many bytes the frame has that is written.
fn framed(out: &mut [u8], m: &Message) -> Result<usize, Refusal>
    ensures { (told result ≡ write_rule m.now out.old) × (out.new ≡ output_rule m.now out.old) }
{
    // `fault` is asked in each branch: where the kind is known, the compiler drops its test. Asked once before them, a read request took 1.17 of the twin's
    // time, and so 0.8 to 1.1. (An if, as in `desk_acts::ask`.)
    if m.kind == Kind::ReadAsked as u8 {
        fault(m.kind, m.desks, m.desk, m.cell)?;
        return bare(out, m);
    }
    fault(m.kind, m.desks, m.desk, m.cell)?;
    whole(out, m)
}

// A read asked: its frame is the head alone.
fn bare(out: &mut [u8], m: &Message) -> Result<usize, Refusal>
    requires { (fault_in m.now ≡ 0) × (m.now.kind ≡ 1) }
    ensures { (told result ≡ write_rule m.now out.old) × (out.new ≡ output_rule m.now out.old) }
{
    if !((m.word == 0) & m.clock.within(0)) {
        return Err(Refusal::NotWellFormed);
    }
    if out.len() < 7 {
        return Err(Refusal::OutputShort);
    }
    put_head(out, 5, m);
    Ok(7)
}

// Any other: the head, the word and a clock number for each desk.
fn whole(out: &mut [u8], m: &Message) -> Result<usize, Refusal>
    requires { (fault_in m.now ≡ 0) × (m.now.kind ≡ 1 → ⊥) }
    ensures { (told result ≡ write_rule m.now out.old) × (out.new ≡ output_rule m.now out.old) }
{
    let n = m.desks as usize;
    if !m.clock.within(m.desks) {
        return Err(Refusal::NotWellFormed);
    }
    let c = 1 + n;
    if out.len() < 7 + 4 * c {
        return Err(Refusal::OutputShort);
    }
    let size = 5 + 4 * c;
    put_head(out, size, m);
    put_numbers(out, m.word, &m.clock, n);
    Ok(2 + size)
}

fn put_head(out: &mut [u8], size: usize, m: &Message)
    requires { 7 ≤ length out.old }
    ensures { out.new ≡ head_of size m.now.kind m.now.desks m.now.desk m.now.cell ++ drop 7 out.old }
{
    u16::put(out, 0, size);
    let head = [1, m.kind, m.desks, m.desk, m.cell];
    out[2..7].copy_from_slice(&head);
}

// The word and the first n of the clock's numbers, after the head. (n beside the message: so many are sent.)
fn put_numbers(out: &mut [u8], word: u32, clock: &Clock, n: usize)
    requires { (n ≤ 8) × (11 + 4 * n ≤ length out.old) }
    ensures { out.new ≡ put 7 (spell (take (1 + n) (drop 6 widths)) (word ∷ clock.now.n)) (4 * (1 + n)) out.old }
{
    u32::put(out, 7, word as usize);
    put_fours(out, 11, &clock.n[..n]);
}
