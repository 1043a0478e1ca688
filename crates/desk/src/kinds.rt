// The kinds of events and of what a slot or a message holds. Lent memory and C have them as numbers, and any number may stand there.
ghost use Rattle.std.specs.Prelude.{◌≡◌};
ghost use Rattle.desk.specs.Kinds.{act_of, kind_of};

use theory_refusals::Refusal;

// What somebody wants of a desk. Take: the keeper receives the desk's request; bring: the desk receives its answer; drop: a copy is given up.
#[derive(Clone, Copy, Debug, PartialEq, Eq)]
pub enum Act {
    Read = 1,
    Write = 2,
    Take = 3,
    Bring = 4,
    Drop = 5,
}

impl TryFrom<u32> for Act {
    type Error = Refusal;

    ghost try_from_gives = { λ n r. r ≡ act_of n };

    fn try_from(n: u32) -> Result<Act, Refusal> {
        match n {
            1 => Ok(Act::Read),
            2 => Ok(Act::Write),
            3 => Ok(Act::Take),
            4 => Ok(Act::Bring),
            5 => Ok(Act::Drop),
            _ => Err(Refusal::NoSuchEvent),
        }
    }
}

// What stands in a slot, and what a message is.
#[derive(Clone, Copy, Debug, PartialEq, Eq)]
pub enum Kind {
    Nothing = 0,
    ReadAsked = 1,
    WriteAsked = 2,
    ReadAnswered = 3,
    WriteAnswered = 4,
}

impl TryFrom<u8> for Kind {
    type Error = Refusal;

    ghost try_from_gives = { λ n r. r ≡ kind_of n };

    fn try_from(n: u8) -> Result<Kind, Refusal> {
        match n {
            0 => Ok(Kind::Nothing),
            1 => Ok(Kind::ReadAsked),
            2 => Ok(Kind::WriteAsked),
            3 => Ok(Kind::ReadAnswered),
            4 => Ok(Kind::WriteAnswered),
            _ => Err(Refusal::FrameKind),
        }
    }
}
