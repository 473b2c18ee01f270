// Questions about a table's bytes: whether the boards fit at a period, whether the values arrive, the period, and the gap.
#![tactic(auto)]

ghost use Rattle.rules.specs.Answers.{asked_table, IsPeriodOf, IsGapOf, BoardsFit, ValuesArrive};
ghost use Rattle.fields.specs.Verdicts.{answered};
ghost use Rattle.table.specs.Tables.{JudgedAs};

use fields::Refusal;
use table::Table;

// ---- a table and a period asked for

// The table, where it is accepted and q is from 1 to its length.
fn ask(s: &[u8], q: u64) -> Result<Table, Refusal>
    ensures { JudgedAs (asked_table s.now q) result }
{
    let t = reading::read(s)?;
    if !asks::in_range(q, t.len as u64) {
        return Err(Refusal::Ask(0));
    }
    Ok(t)
}

// The four below differ in what they ask the engine: each is two lines, and one function that takes the engine's would be no plainer.

// Whether the boards fit at q.
pub fn boards_fit(s: &[u8], q: u64) -> Result<bool, Refusal>
    ensures { BoardsFit s.now q (answered result) }
{
    let t = ask(s, q)?;
    Ok(period::boards_fit(t, q as u32))
}

// Whether the values arrive at q.
pub fn values_arrive(s: &[u8], q: u64) -> Result<bool, Refusal>
    ensures { ValuesArrive s.now q (answered result) }
{
    let t = ask(s, q)?;
    Ok(period::values_arrive(t, q as u32))
}

// ---- the period and the gap

// The smallest right period.
pub fn period_of(s: &[u8]) -> Result<u32, Refusal>
    ensures { IsPeriodOf s.now (answered result) }
{
    let t = reading::read(s)?;
    Ok(period::smallest(t))
}

// The smallest gap that serves.
pub fn gap_of(s: &[u8]) -> Result<u32, Refusal>
    ensures { IsGapOf s.now (answered result) }
{
    let t = reading::read(s)?;
    Ok(gaps::smallest(t))
}
