#![tactic(auto)]
// The table of refusals: why an event, a message, a plan or a frame is refused, and the number that is told.
ghost use Rattle.std.specs.Prelude.{◌≡◌};
ghost use Rattle.theory_refusals.specs.Numbers.{number_of};

use std::error::Error;
use std::fmt;

#[derive(Clone, Copy, Debug, PartialEq, Eq)]
pub enum Refusal {
    NoSuchEvent = 8,
    NotSound = 9,
    NoSuchDesk = 10,
    NoSuchCell = 11,
    DeskWaits = 12,
    NothingThere = 13,
    CellKept = 14,
    MessageUnfit = 15,
    NoNumberLeft = 16,
    DeskCount = 20,
    CellCount = 21,
    KeeperNoDesk = 22,
    FrameCut = 30,
    FrameVersion = 31,
    FrameKind = 32,
    FrameDeskCount = 33,
    FrameDesk = 34,
    FrameCell = 35,
    FrameLength = 36,
    OutputShort = 37,
    NotWellFormed = 38,
}

impl Refusal {
    // Its number in the table. (What our code calls; `From` below is for who takes it by the trait.)
    pub fn number(self) -> u32
        ensures { result ≡ number_of self }
    {
        self as u32
    }
}

impl From<Refusal> for u32 {
    ghost from_gives = { λ r n. n ≡ number_of r };

    fn from(r: Refusal) -> u32 {
        r.number()
    }
}

impl fmt::Display for Refusal {
    fn fmt<W: fmt::Write>(&self, f: &mut fmt::Formatter<W>) -> fmt::Result {
        f.write_str(match self {
            Refusal::NoSuchEvent => "no such event",
            Refusal::NotSound => "the record or table is not sound",
            Refusal::NoSuchDesk => "no such desk",
            Refusal::NoSuchCell => "no such cell",
            Refusal::DeskWaits => "the desk waits",
            Refusal::NothingThere => "nothing to take or to bring",
            Refusal::CellKept => "the desk keeps the cell",
            Refusal::MessageUnfit => "the message does not fit",
            Refusal::NoNumberLeft => "the desk has no number left",
            Refusal::DeskCount => "desks are not 1 to 8",
            Refusal::CellCount => "cells are not 1 to 32",
            Refusal::KeeperNoDesk => "a keeper is no desk",
            Refusal::FrameCut => "the frame is cut",
            Refusal::FrameVersion => "the frame has another version",
            Refusal::FrameKind => "the kind is not 1 to 4",
            Refusal::FrameDeskCount => "the desk count is not 2 to 8",
            Refusal::FrameDesk => "the asking desk is not below the desk count",
            Refusal::FrameCell => "the cell is above 31",
            Refusal::FrameLength => "the length is not that of the message",
            Refusal::OutputShort => "the output is too short",
            Refusal::NotWellFormed => "the message is not well formed",
        })
    }
}

impl Error for Refusal {}
