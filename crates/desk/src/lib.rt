#![tactic(auto)]
// One desk: its record, what passes between desks, and whether a tray is sound. What a desk does, and whether its record is sound, stands in the crates
// above.
ghost use Rattle.std.specs.Prelude.{◌≡◌};
ghost use Rattle.desk.specs.Desk.{kept_by};

use clock::Clock;
use kinds::Kind;

pub mod kinds;
pub mod sound;

// What a desk has of one cell. A cell that is not held has word 0 and the zero stamp. (A flag beside its value and no Option: C lends it.)
#[repr(C)]
#[derive(Clone, Copy)]
pub struct Cell {
    pub held: bool,
    pub word: u32,
    pub stamp: Clock,
}

impl Cell {
    // A cell that is not held.
    pub const NONE: Cell = Cell {
        held: false,
        word: 0,
        stamp: Clock::ZERO,
    };

    // What a keeper has of a cell that nobody has written: held, and blank.
    pub const BLANK: Cell = Cell {
        held: true,
        word: 0,
        stamp: Clock::ZERO,
    };
}

// What a desk waits for: a `Kind`, and of a write asked the word and the sent clock, of an answer the word and the stamp. (The kind is a number here,
// in an event and in a message, and an answer's code beside its value: C lends and passes them, and any number may stand there.)
#[repr(C)]
#[derive(Clone, Copy)]
pub struct Slot {
    pub kind: u8,
    pub cell: u8,
    pub word: u32,
    pub clock: Clock,
}

impl Slot {
    // An empty slot.
    pub const NONE: Slot = Slot {
        kind: Kind::Nothing as u8,
        cell: 0,
        word: 0,
        clock: Clock::ZERO,
    };
}

// What a desk has beside its cells. *served*: it served a write while it waited.
#[repr(C)]
#[derive(Clone, Copy)]
pub struct Seat {
    pub clock: Clock,
    pub slot: Slot,
    pub served: bool,
}

impl Seat {
    // A fresh desk's, and an absent one's: all zero.
    pub const NONE: Seat = Seat {
        clock: Clock::ZERO,
        slot: Slot::NONE,
        served: false,
    };
}

// A cell's place in the tray: who keeps it.
#[repr(C)]
#[derive(Clone, Copy)]
pub struct Place {
    pub keeper: u8,
}

impl Place {
    // What stands past the cell count.
    pub const NONE: Place = Place { keeper: 0 };

    pub fn kept_by(self, desk: usize) -> bool
        ensures { result ≡ kept_by self desk }
    {
        self.keeper as usize == desk
    }
}

#[repr(C)]
#[derive(Clone, Copy)]
pub struct Counts {
    pub desks: u8,
    pub cells: u8,
}

// The tray as it was set up.
#[repr(C)]
#[derive(Clone, Copy)]
pub struct Tray {
    pub counts: Counts,
    pub places: [Place; 32],
}

impl Tray {
    // What a refusal to start or to set up leaves: all zero.
    pub const NONE: Tray = Tray {
        counts: Counts { desks: 0, cells: 0 },
        places: [Place::NONE; 32],
    };
}

// A desk's record, which its program lends it: its row of the table, with the tray and the desk's number.
#[repr(C)]
#[derive(Clone, Copy)]
pub struct Record {
    pub tray: Tray,
    pub desk: u8,
    pub seat: Seat,
    pub row: [Cell; 32],
}

// What somebody wants of a desk: an `Act` as a number. Any number may stand anywhere.
#[repr(C)]
#[derive(Clone, Copy)]
pub struct Event {
    pub kind: u32,
    pub desk: u32,
    pub cell: u32,
    pub word: u32,
}

#[repr(C)]
#[derive(Clone, Copy)]
pub struct Reply {
    pub code: u32,
    pub value: u32,
    pub count: u32,
}

// What desks send each other. The kinds are those of a full slot; the desk is the one that asked.
#[repr(C)]
#[derive(Clone, Copy)]
pub struct Message {
    pub kind: u8,
    pub desks: u8,
    pub desk: u8,
    pub cell: u8,
    pub word: u32,
    pub clock: Clock,
}

impl Message {
    // No message: all zero.
    pub const NONE: Message = Message {
        kind: Kind::Nothing as u8,
        desks: 0,
        desk: 0,
        cell: 0,
        word: 0,
        clock: Clock::ZERO,
    };
}

// What a step gives: the reply, the message to send (all zero where there is none), and the record afterwards. (For the rules, which speak of it.)
#[derive(Clone, Copy)]
pub struct Step {
    pub reply: Reply,
    pub message: Message,
    pub after: Record,
}

// What a step gives beside the record, which goes back to the lender.
#[repr(C)]
#[derive(Clone, Copy)]
pub struct Answer {
    pub reply: Reply,
    pub message: Message,
}

// All that set-up and start are told. Any number may stand anywhere; keepers past the cell count are ignored.
#[repr(C)]
#[derive(Clone, Copy)]
pub struct Plan {
    pub desks: u32,
    pub cells: u32,
    pub keepers: [u32; 32],
}

// What starting comes to: code 0 and the desk's fresh record, or a refusal and an all-zero one. (A pair and no Result, since the rule `start_rule` and its
// theorems speak of it; no code returns one.)
#[derive(Clone, Copy)]
pub struct Started {
    pub code: u32,
    pub record: Record,
}
