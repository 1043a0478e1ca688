#![tactic(auto)]
// What C and Rust link: each entry point of `cwmorlais`, exported under its name with its clauses. Each only hands on what it is given. (They stand twice,
// since a crate is a library or what C links, and not both.)
ghost use Rattle.std.specs.Prelude.{◌≡◌};
ghost use Rattle.desk.specs.Rules.{answer_of, event_rule, serve_rule, bring_rule};
ghost use Rattle.desk.specs.Start.{start_rule};
ghost use Rattle.frame.specs.Frame.{read_rule, write_rule, output_rule};
ghost use Rattle.table.specs.Rules.{event_rule as table_rule};
ghost use Rattle.table.specs.SetUp.{set_up_rule};

use desk::{Answer, Event, Message, Plan, Record, Reply};
use frame::{Reading, Written};
use table::Table;

#[unsafe(no_mangle)]
pub extern "C" fn cwmorlais_desk_start(v: &mut Record, plan: Plan, desk: u32) -> u32
    ensures { (result ≡ (start_rule plan desk).code) × (v.new ≡ (start_rule plan desk).«record») }
{
    cwmorlais::cwmorlais_desk_start(v, plan, desk)
}

#[unsafe(no_mangle)]
pub extern "C" fn cwmorlais_desk_event(v: &mut Record, e: Event) -> Answer
    ensures { (result ≡ answer_of (event_rule v.old e)) × (v.new ≡ (event_rule v.old e).after) }
{
    cwmorlais::cwmorlais_desk_event(v, e)
}

#[unsafe(no_mangle)]
pub extern "C" fn cwmorlais_desk_serve(v: &mut Record, m: &Message) -> Answer
    ensures { (result ≡ answer_of (serve_rule v.old m.now)) × (v.new ≡ (serve_rule v.old m.now).after) }
{
    cwmorlais::cwmorlais_desk_serve(v, m)
}

#[unsafe(no_mangle)]
pub extern "C" fn cwmorlais_desk_bring(v: &mut Record, m: &Message) -> Answer
    ensures { (result ≡ answer_of (bring_rule v.old m.now)) × (v.new ≡ (bring_rule v.old m.now).after) }
{
    cwmorlais::cwmorlais_desk_bring(v, m)
}

#[unsafe(no_mangle)]
pub extern "C" fn cwmorlais_frame_read(s: &[u8]) -> Reading
    ensures { result ≡ read_rule s.now }
{
    cwmorlais::cwmorlais_frame_read(s)
}

#[unsafe(no_mangle)]
pub extern "C" fn cwmorlais_frame_write(m: &Message, out: &mut [u8]) -> Written
    ensures { (result ≡ write_rule m.now out.old) × (out.new ≡ output_rule m.now out.old) }
{
    cwmorlais::cwmorlais_frame_write(m, out)
}

#[unsafe(no_mangle)]
pub extern "C" fn cwmorlais_table_set_up(t: &mut Table, plan: Plan) -> u32
    ensures { (result ≡ (set_up_rule plan).code) × (t.new ≡ (set_up_rule plan).table) }
{
    cwmorlais::cwmorlais_table_set_up(t, plan)
}

#[unsafe(no_mangle)]
pub extern "C" fn cwmorlais_table_event(t: &mut Table, e: Event) -> Reply
    ensures { (result ≡ (table_rule t.old e).reply) × (t.new ≡ (table_rule t.old e).after) }
{
    cwmorlais::cwmorlais_table_event(t, e)
}
