// Whether a tray is sound, and small tests on a slot, a word, a stamp and a place.
ghost use Rattle.std.specs.Prelude.{◌≡◌, ◌<◌};
ghost use Rattle.desk.specs.Desk.{is_no_word, is_blank, keeps_at, keeps as keeps_def, waits as waits_def};
ghost use Rattle.desk.specs.Sound.{word_fits, sent_fits, place_sound, tray_sound};

use crate::kinds::Kind;
use crate::{Counts, Place, Slot, Tray};
use clock::Clock;

#[tactic(auto, unfolding(crate::specs::Desk::waits))]
pub fn waits(s: Slot) -> bool
    ensures { result ≡ waits_def s }
{
    s.kind != Kind::Nothing as u8
}

#[tactic(auto, unfolding(crate::specs::Desk::is_no_word))]
fn is_no_word(word: u32) -> bool
    ensures { result ≡ is_no_word word }
{
    word == 0
}

// Whether a stamp is one that no write has: all zeros.
#[tactic(auto, unfolding(crate::specs::Desk::is_blank))]
pub fn is_blank(stamp: Clock) -> bool
    ensures { result ≡ is_blank stamp }
{
    stamp.within(0)
}

// Word 0 wherever the stamp is all zeros.
#[tactic(auto, unfolding(crate::specs::Sound::word_fits))]
pub fn word_fits(word: u32, stamp: Clock) -> bool
    ensures { result ≡ word_fits word stamp }
{
    !is_blank(stamp) | is_no_word(word)
}

// No write is asked under a clock that is all zeros.
#[tactic(auto, unfolding(crate::specs::Sound::sent_fits))]
pub fn sent_fits(kind: u8, sent: Clock) -> bool
    ensures { result ≡ sent_fits kind sent }
{
    !((kind == Kind::WriteAsked as u8) & is_blank(sent))
}

// Whether the desk keeps cell c, whose place is p.
fn keeps_at(n: Counts, p: Place, desk: u8, c: usize) -> bool
    ensures { result ≡ keeps_at n p desk c }
{
    let cells = n.cells as usize;
    (c < cells) & (p.keeper == desk)
}

// (It asks for a cell's bound: what is lent has any number, and a test here would need an answer for a case that never comes.)
#[tactic(auto, unfolding(crate::specs::Desk::keeps))]
pub fn keeps(t: Tray, desk: u8, c: usize) -> bool
    requires { c < 32 }
    ensures { result ≡ keeps_def t desk c }
{
    keeps_at(t.counts, t.places[c], desk, c)
}

#[tactic(auto, unfolding(crate::specs::Sound::place_sound))]
fn place_sound(n: Counts, c: usize, p: Place) -> bool
    ensures { result ≡ place_sound n c p }
{
    let cells = n.cells as usize;
    if c < cells {
        return p.keeper < n.desks;
    }
    p.keeper == 0
}

pub fn tray_sound(t: Tray) -> bool
    ensures { result ≡ tray_sound t }
{
    let n = t.counts;
    // (A flag and no early end, as in `Clock::within`.)
    let mut ok = (1 <= n.desks) & (n.desks <= 8) & ((1 <= n.cells) & (n.cells <= 32));
    for (c, p) in t.places.iter().enumerate() {
        ok &= place_sound(n, c, *p);
    }
    ok
}
