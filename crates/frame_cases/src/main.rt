#![tactic(auto)]
// Runs frame vectors. Each line of input is a case, and is written again with what reading or writing gives; `-` stands for no bytes.
//     R <hex input>                                          and then code, used, kind, desks, desk, cell, word, eight clock numbers
//     W <kind desks desk cell word, eight clock numbers, room>  and then code, used, hex of the output, each byte of which was EE before
ghost use Rattle.std.specs.Prelude.{◌<◌, IfSome};

use clock::Clock;
use desk::Message;
use std::fmt::Display;
use std::io::Write;
use std::{array, io};
use whole_input::read_all;

// A case as far as its line has been read: fixed arrays, and how much of them is used. (As a Vec and slices it would ask for an
// allocator and answer a Result at each byte.)
#[derive(Clone, Copy)]
struct Case {
    asks: Asks,
    field: usize,
    numbers: [u64; 16],
    digits: usize,
    bytes: [u8; 512],
}

#[derive(Clone, Copy)]
enum Asks {
    Read,
    Write,
}

fn main(rt: HostRuntime) -> io::Result<()> {
    let mut text = [0u8; 262144];
    let n = read_all(&mut rt.stdin(), &mut text)?;
    run(&text[..n], &mut rt.stdout())
}

fn run<W: Write>(text: &[u8], out: &mut W) -> io::Result<()> {
    let mut case = fresh();
    for b in text {
        case = next(case, *b, out)?;
    }
    Ok(())
}

fn fresh() -> Case {
    Case {
        asks: Asks::Read,
        field: 0,
        numbers: [0; 16],
        digits: 0,
        bytes: [0; 512],
    }
}

fn next<W: Write>(mut case: Case, b: u8, out: &mut W) -> io::Result<Case> {
    if b == b'\n' {
        finish(case, out)?;
        out.write_all(b"\n")?;
        return Ok(fresh());
    }
    out.write_all(&[b])?;
    match (b, case.asks) {
        (b' ', _) => case.field = case.field % 16 + 1,
        (b'W', _) => case.asks = Asks::Write,
        (_, Asks::Write) => case = with_decimal(case, b),
        (_, Asks::Read) => case = with_hex(case, b),
    }
    Ok(case)
}

fn with_decimal(mut case: Case, b: u8) -> Case {
    let at = case.field % 16;
    case.numbers[at] = case.numbers[at] % 1000000000 * 10 + b as u64 % 16;
    case
}

// What is no digit is passed over, and so are digits that there is no room for.
fn with_hex(mut case: Case, b: u8) -> Case {
    let at = case.digits / 2;
    if let Some(digit) = digit(b)
        && at < 512
    {
        case.bytes[at] = case.bytes[at] % 16 * 16 + digit;
        case.digits += 1;
    }
    case
}

// (By hand: `to_digit` would take A to F too.)
fn digit(b: u8) -> Option<u8>
    ensures { IfSome result (λ d. d < 16) }
{
    match b {
        b'0'..=b'9' => Some(b - b'0'),
        b'a'..=b'f' => Some(b - b'a' + 10),
        _ => None,
    }
}

fn finish<W: Write>(case: Case, out: &mut W) -> io::Result<()> {
    match case.asks {
        Asks::Read => finish_read(case, out),
        Asks::Write => finish_write(case, out),
    }
}

fn finish_read<W: Write>(case: Case, out: &mut W) -> io::Result<()> {
    let bytes = case.bytes;
    let r = frame_read::read(&bytes[..case.digits / 2 % 512]);
    let m = r.message;
    put(r.code, out)?;
    put(r.used, out)?;
    for n in [m.kind, m.desks, m.desk, m.cell] {
        put(n, out)?;
    }
    put(m.word, out)?;
    for n in m.clock.n {
        put(n, out)?;
    }
    Ok(())
}

fn finish_write<W: Write>(case: Case, out: &mut W) -> io::Result<()> {
    let n = case.numbers;
    let m = Message {
        kind: byte(n[1]),
        desks: byte(n[2]),
        desk: byte(n[3]),
        cell: byte(n[4]),
        word: word(n[5]),
        clock: Clock {
            n: array::from_fn(|k| word(n[6 + k])),
        },
    };
    let mut bytes = [0xEEu8; 64];
    let room = (n[14] % 64) as usize;
    let w = frame_write::write(&mut bytes[..room], &m);
    put(w.code, out)?;
    put(w.used, out)?;
    put_hex(&bytes[..room], out)
}

fn byte(n: u64) -> u8 {
    (n % 256) as u8
}

fn word(n: u64) -> u32 {
    (n % 4294967296) as u32
}

fn put<T: Display + Drop, W: Write>(n: T, out: &mut W) -> io::Result<()> {
    write!(out, " {n}")
}

fn put_hex<W: Write>(s: &[u8], out: &mut W) -> io::Result<()> {
    if s.is_empty() {
        return out.write_all(b" -");
    }
    out.write_all(b" ")?;
    for b in s {
        write!(out, "{b:02x}")?;
    }
    Ok(())
}
