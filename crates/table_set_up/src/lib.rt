#![tactic(auto)]
// Setting up a table where it lies, and one that its caller owns.
ghost use Rattle.std.specs.Prelude.{◌≡◌, IfOk};
ghost use Rattle.theory_refusals.specs.Numbers.{code_of};
ghost use Rattle.table.specs.SetUp.{fresh_table, no_table, set_up_rule};
ghost use Rattle.table.specs.SetUpInPlace.{Housed};

use desk::{Cell, Plan, Tray};
use desk_start::{check_plan, tray};
use table::Table;
use theory_refusals::Refusal;

// A fresh table from any plan, in place of the one that is lent. (A code: `set_up_rule` has it, and `cwmorlais_table_set_up` hands it to C.)
pub fn set_up(t: &mut Table, plan: Plan) -> u32
    ensures { (result ≡ (set_up_rule plan).code) × (t.new ≡ (set_up_rule plan).table) }
{
    match check_plan(plan) {
        Ok(()) => {
            fresh(t, tray(plan));
            0
        }
        Err(r) => {
            *t = Table::NONE;
            r.number()
        }
    }
}

// The same as a value, for who owns the table.
pub fn made(plan: Plan) -> Result<Table, Refusal>
    ensures code { code_of result ≡ (set_up_rule plan).code }
    ensures table { IfOk result (λ t. t ≡ (set_up_rule plan).table) }
{
    check_plan(plan)?;
    let mut table = Table::NONE;
    fresh(&mut table, tray(plan));
    Ok(table)
}

// Each cell is held by its keeper, blank. (Not one loop with the record's: a shared one over a row took a start 100 ns for 70, and a set-up 490 for 174.)
#[tactic(auto, unfolding(table::specs::SetUp::no_table, desk::specs::Start::no_tray))]
fn fresh(t: &mut Table, x: Tray)
    requires { Housed x }
    ensures { t.new ≡ fresh_table x }
{
    *t = Table::NONE;
    t.tray = x;
    for (c, p) in x.places[..x.counts.cells as usize].iter().enumerate() {
        t.cells[p.keeper as usize * 32 + c] = Cell::BLANK;
    }
}
