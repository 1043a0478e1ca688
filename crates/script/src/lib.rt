#![tactic(auto)]
// What the script program answers, as a function from an input slice to an output array.
ghost use Rattle.std.specs.Prelude.{Some, true, ◌≡◌, ◌+◌, ◌≤◌, ℕ, List, length, MatchResult};
ghost use Rattle.std.proofs.Math.Option.{none, some};
ghost use Rattle.table.specs.Room.{Room};
ghost use Rattle.table.specs.Sound.{table_sound};
ghost use Rattle.text.specs.Line.{lines_of};
ghost use Rattle.text.specs.Printing.{Put};
ghost use Rattle.text.specs.Front.{front_line};
ghost use Rattle.text.specs.Script.{first, having, run as script_run, sized, begun, answer as script_answer};
ghost use Rattle.text_print.specs.Page.{Prints};
ghost use Rattle.script.specs.Rules.{event_of, set_up, event};
ghost use Rattle.script.specs.Stops.{ending, EndsIn, Ready, Kept, Blank, Leaves};

use desk::{Event, Plan};
use table::Table;
use text::{Numbers, read_line};
use text_print::Page;
use theory_refusals::Refusal;

// An input above this has only `too long` for an answer.
const LONGEST: usize = 65536;

// Why an answer ends before its input does.
#[derive(Clone, Copy)]
enum Stop {
    BadLine(u32),
    Refused(Refusal),
}

// Puts what the whole input must answer at the start of out, and says how many bytes it has. The room is enough for any input: a reply of
// at most 33 bytes to each event of at least 8, in 65,536 bytes, and a last line.
pub fn answer(s: &[u8], out: &mut [u8; 270400]) -> usize
    ensures put { Put (script_answer set_up event s.now) out.old 0 out.new result }
    ensures upper_bound { result ≤ 270400 }
{
    let mut page = Page::new(out);
    print(s, &mut page);
    page.len()
}

// Prints what the whole input must answer. (Three ask for a blank page: what is printed makes it another, so that it is no invariant of `Page`.)
fn print(s: &[u8], page: &mut Page)
    requires { Blank page.old }
    ensures prints { Prints (script_answer set_up event s.now) page.old page.new }
    ensures upper_bound { page.new.at ≤ 270400 }
{
    if LONGEST < s.len() {
        return page.put_too_long();
    }
    match follow(s, page) {
        Ok(()) => {}
        Err(Stop::BadLine(n)) => page.put_bad_line(n),
        Err(Stop::Refused(r)) => page.put_line(&[r.number()]),
    }
}

// Prints the replies.
fn follow(text: &[u8], page: &mut Page) -> Result<(), Stop>
    requires blank { Blank page.old }
    requires few { length text.now ≤ 65536 }
    ensures { Leaves (begun set_up event (lines_of text.now)) page.old page.new (ending result) }
{
    let (table, rest) = begin(text)?;
    run(table, rest, page)
}

// The table that lines 1 and 2 set up, and the text behind them.
fn begin(text: &[u8]) -> Result<(Table, &[u8]), Stop>
    ensures { MatchResult result (λ r. Ready (begun set_up event (lines_of text.now)) text.now r.0 r.1.now)
        (EndsIn (begun set_up event (lines_of text.now))) }
{
    let Ok(read) = line(text, 1) else {
        return Err(Stop::BadLine(1));
    };
    let [desks, cells] = *read.0.as_slice() else {
        return Err(Stop::BadLine(1));
    };
    let (keepers, text) = read_keepers(cells, read.1)?;
    let plan = Plan {
        desks,
        cells,
        keepers,
    };
    // (A match and no `map_err`: the edit `refused_set_up_goes_on` wants an arm by which to let one refusal through.)
    match table_set_up::made(plan) {
        Ok(table) => Ok((table, text)),
        Err(r) => Err(Stop::Refused(r)),
    }
}

// The keepers that line 2 gives, and the text behind it. It is not looked at if the cells are none or too many.
fn read_keepers(cells: u32, text: &[u8]) -> Result<([u32; 32], &[u8]), Stop>
    ensures { MatchResult result (λ r. Kept cells text.now r.0 r.1.now)
        (λ stop. (desks : ℕ) → EndsIn (sized set_up event desks cells (lines_of text.now)) stop) }
{
    let mut keepers = [0; 32];
    if !(0 < cells && cells <= 32) {
        return Ok((keepers, text));
    }
    let Ok(read) = line(text, 2) else {
        return Err(Stop::BadLine(2));
    };
    let numbers = read.0.as_slice();
    if numbers.len() != cells as usize {
        return Err(Stop::BadLine(2));
    }
    keepers[..numbers.len()].copy_from_slice(numbers);
    Ok((keepers, read.1))
}

// Prints the replies to the events. A fresh table is sound and every event keeps it so: none is tested.
fn run(fresh: Table, text: &[u8], page: &mut Page) -> Result<(), Stop>
    requires table { (table_sound fresh ≡ true) × Room fresh }
    requires blank { Blank page.old }
    requires few { length text.now ≤ 65536 }
    ensures { Leaves (script_run set_up event fresh 3 (lines_of text.now)) page.old page.new (ending result) }
{
    let mut table = fresh;
    let mut rest = text;
    // the number of the line at the front of rest: `read_line` gives the rest of the text and no line, so that no iterator counts them
    let mut n: u32 = 3;
    while !rest.is_empty() {
        let (e, behind) = read_event(rest, n)?;
        let reply = table_step::step(&mut table, e);
        page.put_line(&[reply.code, reply.value, reply.count]);
        rest = behind;
        n += 1;
    }
    Ok(())
}

// The event that line n gives, and the text behind it.
fn read_event(text: &[u8], n: u32) -> Result<(Event, &[u8]), Stop>
    ensures { MatchResult result
        (λ r. (ns : List ℕ) × (front_line text.now ≡ some (Some ns, r.1.now)) × (length ns ≡ 4) × (r.0 ≡ event_of ns))
        (λ stop. (having 4 (first (lines_of text.now)) ≡ none) × (stop ≡ Stop.BadLine n)) }
{
    let Ok(read) = line(text, n) else {
        return Err(Stop::BadLine(n));
    };
    let [kind, desk, cell, word] = *read.0.as_slice() else {
        return Err(Stop::BadLine(n));
    };
    let e = Event {
        kind,
        desk,
        cell,
        word,
    };
    Ok((e, read.1))
}

// The numbers of line n, which stands at the front of the text, and the text behind it. (The two go together from here to `run`: as a struct they would be
// taken apart in each. A match, and an else in those that call it: of `?` on `Numbers`, which is `Copy`, beside a slice there is no proof.)
fn line(text: &[u8], n: u32) -> Result<(Numbers, &[u8]), Stop>
    ensures { MatchResult result (λ r. front_line text.now ≡ some (Some r.0, r.1.now))
        (λ stop. ((k : ℕ) → k ≤ 32 → having k (first (lines_of text.now)) ≡ none) × (stop ≡ Stop.BadLine n)) }
{
    match read_line(text) {
        Some((Some(numbers), rest)) => Ok((numbers, rest)),
        Some((None, _)) => Err(Stop::BadLine(n)),
        None => Err(Stop::BadLine(n)),
    }
}
