#![tactic(auto)]
// The table of all desks, with their messages under way: its type. What is done with it stands in the crates above.
use desk::{Cell, Reply, Seat, Tray};

// Desk d's cell c is entry d * 32 + c of `cells`, and its seat entry d of `seats`. (Two arrays in place of a row for each desk: C's layout.)
#[repr(C)]
#[derive(Clone, Copy)]
pub struct Table {
    pub cells: [Cell; 256],
    pub tray: Tray,
    pub seats: [Seat; 8],
}

impl Table {
    // What a refusal to set up leaves: all zero.
    pub const NONE: Table = Table {
        cells: [Cell::NONE; 256],
        tray: Tray::NONE,
        seats: [Seat::NONE; 8],
    };
}

// What an event gives: the reply, and the table afterwards. (For the rules, which speak of it.)
#[derive(Clone, Copy)]
pub struct Outcome {
    pub reply: Reply,
    pub after: Table,
}

// What setting up gives: code 0 and the fresh table, or a refusal and an all-zero one. (A pair and no Result, as `desk::Started` is: the rule `set_up_rule` and
// its theorems speak of it.)
#[derive(Clone, Copy)]
pub struct SetUp {
    pub code: u32,
    pub table: Table,
}
