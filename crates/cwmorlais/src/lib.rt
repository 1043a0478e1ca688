#![tactic(auto)]
// The library's entry points. A lent record or table is made and stepped where it lies. C and Rust link them by the exports of `cwmorlais_c`.
ghost use Rattle.std.specs.Prelude.{◌≡◌};
ghost use Rattle.desk.specs.Rules.{answer_of, event_rule, serve_rule, bring_rule};
ghost use Rattle.desk.specs.Start.{start_rule};
ghost use Rattle.frame.specs.Frame.{read_rule, write_rule, output_rule};
ghost use Rattle.table.specs.Rules.{event_rule as table_rule};
ghost use Rattle.table.specs.SetUp.{set_up_rule};

use desk::{Answer, Event, Message, Plan, Record, Reply};
use frame::{Reading, Written};
use table::Table;

// A desk's fresh record, in place of the one that is lent; a refusal leaves it all zero. (A code, for C.)
pub fn cwmorlais_desk_start(v: &mut Record, plan: Plan, desk: u32) -> u32
    ensures { (result ≡ (start_rule plan desk).code) × (v.new ≡ (start_rule plan desk).«record») }
{
    desk_start::start(v, plan, desk)
}

// The desk's user wants something. With code 1 the message is the request, for the cell's keeper.
pub fn cwmorlais_desk_event(v: &mut Record, e: Event) -> Answer
    ensures { (result ≡ answer_of (event_rule v.old e)) × (v.new ≡ (event_rule v.old e).after) }
{
    desk_step::event(v, e)
}

// A request came for a cell that this desk keeps. With code 0 the message is the answer, for the desk that asked.
pub fn cwmorlais_desk_serve(v: &mut Record, m: &Message) -> Answer
    ensures { (result ≡ answer_of (serve_rule v.old m.now)) × (v.new ≡ (serve_rule v.old m.now).after) }
{
    desk_step::serve(v, *m)
}

// The answer came to what this desk asked.
pub fn cwmorlais_desk_bring(v: &mut Record, m: &Message) -> Answer
    ensures { (result ≡ answer_of (bring_rule v.old m.now)) × (v.new ≡ (bring_rule v.old m.now).after) }
{
    desk_step::bring(v, *m)
}

// The message whose frame the bytes start with.
pub fn cwmorlais_frame_read(s: &[u8]) -> Reading
    ensures { result ≡ read_rule s.now }
{
    frame_read::read(s)
}

// The frame of a message, at the start of the output.
pub fn cwmorlais_frame_write(m: &Message, out: &mut [u8]) -> Written
    ensures { (result ≡ write_rule m.now out.old) × (out.new ≡ output_rule m.now out.old) }
{
    frame_write::write(out, m)
}

// A fresh table, in place of the one that is lent; a refusal leaves it all zero. (A code, for C.)
pub fn cwmorlais_table_set_up(t: &mut Table, plan: Plan) -> u32
    ensures { (result ≡ (set_up_rule plan).code) × (t.new ≡ (set_up_rule plan).table) }
{
    table_set_up::set_up(t, plan)
}

// One event on the lent table.
pub fn cwmorlais_table_event(t: &mut Table, e: Event) -> Reply
    ensures { (result ≡ (table_rule t.old e).reply) × (t.new ≡ (table_rule t.old e).after) }
{
    table_step::event(t, e)
}
