// Planning: a table's bytes in, its reply's bytes out.
#![tactic(auto)]

ghost use Rattle.rules.specs.Answers.{IsPlan};
ghost use Rattle.fields.specs.Verdicts.{answered, leaving};
ghost use Rattle.table.specs.Tables.{table_of, Good};
ghost use Rattle.plans.specs.Plans.{Plans};

use fields::Refusal;
use rows::Ticks;
use table::Table;

// The reply to an accepted table, or ROOM.
fn plan_table(t: Table, out: &mut [u8]) -> Result<usize, Refusal>
    requires { Good t }
    ensures { Plans (table_of t) out.old (leaving (answered result) out.new) }
{
    let needed = 5 + 7 * t.count;
    if out.len() < needed {
        return Err(Refusal::Room(needed));
    }
    let q = period::smallest(t);
    replies::put_reply(out, t, Ticks(q));
    Ok(needed)
}

// A table's reply: its period and rows, from the front of the buffer. On a refusal every byte of it stays.
pub fn plan(s: &[u8], out: &mut [u8]) -> Result<usize, Refusal>
    ensures { IsPlan s.now out.old (leaving (answered result) out.new) }
{
    let t = reading::read(s)?;
    plan_table(t, out)
}
