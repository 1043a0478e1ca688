#![tactic(auto)]
// The script program: reads standard input to its end, and writes what `script::answer` says of it. What standard input gives and standard
// output takes no contract can say, so all else is in `respond`, for any reader and any writer.
ghost use Rattle.std.specs.Prelude.{OnOk, IfSome};
ghost use Rattle.std.specs.Io.KnownBytes.{Appends};
ghost use Rattle.text.specs.Script.{answer as script_answer};
ghost use Rattle.script.specs.Rules.{set_up, event};

use std::fmt::{Debug, Formatter};
use std::io::{Read, Write};
use std::{fmt, io};
use whole_input::read_all;

// Which of the two failed.
#[derive(Drop)]
enum Failure {
    Input(io::Error),
    Output(io::Error),
}

// By hand, since an Err of main is printed by `Debug`, and `run` shows this text as it stands.
impl Debug for Failure {
    fn fmt<W: fmt::Write>(&self, f: &mut Formatter<W>) -> fmt::Result {
        match self {
            Failure::Input(e) => write!(f, "standard input: {e}"),
            Failure::Output(e) => write!(f, "standard output: {e}"),
        }
    }
}

fn main(rt: HostRuntime) -> Result<(), Failure> {
    respond(&mut rt.stdin(), &mut rt.stdout())
}

// Writes what the script that is read must be answered.
fn respond<R: Read, W: Write>(from: &mut R, to: &mut W) -> Result<(), Failure>
    ensures { OnOk result (IfSome (R.remaining from.old)
        (λ text. Appends (W.contents to.old) (W.contents to.new) (script_answer set_up event text))) }
{
    // one byte more than an input may have
    let mut space = [0u8; 65537];
    let count = read_all(from, &mut space).map_err(Failure::Input)?;
    let mut out = [0u8; 270400];
    let n = script::answer(&space[..count], &mut out);
    to.write_all(&out[..n]).map_err(Failure::Output)
}
