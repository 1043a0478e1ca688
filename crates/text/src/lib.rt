#![tactic(auto)]
// The script's text is read: lines of decimal numbers, one space between, each ended by LF. What is printed stands in `text_print`.
ghost use Rattle.std.specs.Prelude.{◌≡◌, ◌==◌, ◌+◌, ◌-◌, ◌*◌, ◌≤◌, ℕ, List, [], ◌∷◌, ◌++◌, length, take, MatchOption, SomeIff, position};
ghost use Rattle.std.proofs.Math.Option.{none, some};
ghost use Rattle.text.specs.Number.{given, largest, is_digit, starts_well, number_of};
ghost use Rattle.text.specs.Line.{line_numbers};
ghost use Rattle.text.specs.Front.{as_option, few, front_line};
ghost use Rattle.text.specs.Zeros.{Behind, padded, taken, padded-back};

use std::marker::Model;

// A line has no more numbers than this: they need no heap.
const MOST: usize = 32;

// The numbers of a line: an array and how many of it stand (no heap, see `MOST`). Zeros stand behind them, so that it may be `Copy`.
#[derive(Clone, Copy)]
pub struct Numbers {
    n: [u32; MOST],
    count: usize,
}

// Clauses see the numbers that stand there.
impl Model for Numbers {
    ghost Value = { List ℕ };

    ghost view = { λ s. take s.count s.n };

    ghost invariant = { λ s. Behind s.count s.n };

    ghost inverse = { λ ns. record { n = padded ns; count = length ns } };

    ghost inverse_ok = { λ s h i. record { n = padded-back s.count s.n h i; count = taken s.count s.n h i } };
}

impl Numbers {
    fn new() -> Numbers
        ensures { result ≡ [] }
    {
        Numbers {
            n: [0; MOST],
            count: 0,
        }
    }

    // One number more, if there is room.
    fn push(&mut self, n: u32) -> Option<()>
        ensures { MatchOption result (32 ≤ length self.old) (λ _. (self.new ≡ self.old ++ n ∷ []) × (length self.new ≤ 32)) }
    {
        if self.count == MOST {
            return None;
        }
        self.n[self.count] = n;
        self.count += 1;
        Some(())
    }

    pub fn as_slice(&self) -> &[u32]
        ensures { result.now ≡ self.now }
    {
        &self.n[..self.count]
    }
}

// The numbers of the text's first line, and the text behind it. None where no LF ends it; no numbers where it is malformed or has more than fit. (An Option in
// an Option and no Result: what stands behind is told of a malformed line too.)
pub fn read_line(text: &[u8]) -> Option<(Option<Numbers>, &[u8])>
    ensures { MatchOption result (front_line text.now ≡ none) (λ l. front_line text.now ≡ some (l.0, l.1.now)) }
{
    // (An else and no `?`: the edit `line_without_lf` wants a place where a line that no LF ends is taken.)
    let Some(end) = find(text, b'\n') else {
        return None;
    };
    Some((read_numbers(&text[..end]), &text[end + 1..]))
}

// The first place that has b.
fn find(s: &[u8], b: u8) -> Option<usize>
    ensures { result ≡ position (λ x. x == b) s.now }
{
    s.iter().position(|x| *x == b)
}

// The numbers of a whole line, given without its LF.
fn read_numbers(line: &[u8]) -> Option<Numbers>
    ensures { result ≡ as_option (few (line_numbers line.now)) }
{
    if 400 < line.len() {
        return None;
    }
    let mut numbers = Numbers::new();
    for word in line.split(|b| *b == b' ') {
        numbers.push(read_number(word)?)?;
    }
    Some(numbers)
}

// The number that the bytes are.
fn read_number(word: &[u8]) -> Option<u32>
    ensures { result ≡ as_option (number_of word.now) }
{
    if !starts_well(word) {
        return None;
    }
    let mut value: u32 = 0;
    for b in word {
        let last = digit(*b)?;
        value = grown(value, last)?;
    }
    Some(value)
}

// The value with one digit more behind it, if a number may be as large.
fn grown(value: u32, last: u32) -> Option<u32>
    ensures { SomeIff result (value * 10 + last ≤ largest) (value * 10 + last) }
{
    value.checked_mul(10)?.checked_add(last)
}

// Whether there is a byte, and no leading zero.
#[tactic(auto, using(crate::specs::DigitTurns::empty_starts, crate::specs::DigitTurns::single_starts, crate::specs::Value::starts_more))]
fn starts_well(word: &[u8]) -> bool
    ensures { result ≡ starts_well word.now }
{
    match word {
        [] => false,
        [_] => true,
        [first, ..] => *first != b'0',
    }
}

// (By hand: the law of a digit is `is_digit` of the byte, and `to_digit` says its own.)
#[tactic(auto, unfolding(crate::specs::Front::as_option, crate::specs::Number::given, crate::specs::Number::is_digit))]
fn digit(b: u8) -> Option<u32>
    ensures { result ≡ as_option (given (is_digit b) (b - 48)) }
{
    match b {
        b'0'..=b'9' => Some((b - b'0') as u32),
        _ => None,
    }
}
