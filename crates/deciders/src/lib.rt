// Document 02, No. 4: who decides, behind a table's operations: field 05 of its bytes, or a number that is handed over with a mark.
#![tactic(auto)]

ghost use Rattle.std.specs.Prelude.{◌≡◌, ◌+◌, ◌<◌, ◌≤◌, length};
ghost use Rattle.rules.specs.Table.{decides};
ghost use Rattle.rules.specs.Judge.{decider_wrong, nothing_due, decider_at, decider_test};
ghost use Rattle.fields.specs.Verdicts.{answered};
ghost use Rattle.fields.specs.Fields.{IsPlace};
ghost use Rattle.table.specs.Tables.{who_of, table_of, table_in, JudgedAs, going_on, Tidy};
ghost use Rattle.deciders.specs.Deciders.{behind_of, marked_by, handed_of};

use fields::Refusal;
use table::Table;

// Where in its field the number begins if it is none of so many operations.
fn decider_wrong(count: usize, d: u64) -> Option<usize>
    ensures { IsPlace result (decider_wrong count (decides d)) }
{
    if d < count as u64 {
        return None;
    }
    Some(3)
}

// Behind the decider's field nothing is due.
fn nothing_due(s: &[u8], at: usize) -> Result<(), Refusal>
    ensures { answered result ≡ nothing_due s.now at }
{
    let n = s.len();
    if n <= at {
        return Ok(());
    }
    if n - at < 3 {
        return Err(Refusal::Short(at));
    }
    Err(Refusal::Order(at))
}

// The decider's field at a place behind so many operations, if there is one.
fn field_test(s: &[u8], at: usize, count: usize) -> Result<(), Refusal>
    ensures { answered result ≡ decider_test s.now at count }
{
    if s.len() <= at {
        return Ok(());
    }
    reader::field_at(s, at, 5, 1)?;
    let wrong = decider_wrong(count, fields::byte(s, at + 3) as u64);
    fields::range_test(wrong, at)?;
    nothing_due(s, at + 4)
}

// Who it names.
fn who_at(s: &[u8], at: usize) -> Option<usize>
    requires { at < length s.now → at + 4 ≤ length s.now }
    ensures { who_of result ≡ decider_at s.now at }
{
    if s.len() <= at {
        return None;
    }
    Some(fields::byte(s, at + 3) as usize)
}

// A table with the decider that its bytes name behind its operations.
fn read_behind(s: &[u8], t: Table) -> Result<Table, Refusal>
    requires { t ≡ table_in (table_of t) }
    ensures { JudgedAs (behind_of s.now (table_of t)) result }
{
    // where the input is no longer than operations without a hold, nothing stands behind them
    if s.len() <= table::ops_place(t.modes) + 21 * t.count {
        return Ok(Table { decider: None, ..t });
    }
    let at = widths::ops_end(t.modes, t.ops, t.count);
    field_test(s, at, t.count)?;
    Ok(Table {
        decider: who_at(s, at),
        ..t
    })
}

// The same of a table whose fields before are judged: a refusal of them stays.
// Not put into its caller, so that its tables are off the stack again before the whole is judged.
#[inline(never)]
pub fn read(s: &[u8], judged: Result<Table, Refusal>) -> Result<Table, Refusal>
    requires { Tidy judged }
    ensures { JudgedAs (going_on judged (behind_of s.now)) result }
{
    read_behind(s, judged?)
}

// Who is handed over with a mark; with the mark unset the number is ignored.
pub fn marked(mark: u64, number: u64) -> Option<u64>
    ensures { who_of result ≡ marked_by mark number }
{
    (mark != 0).then_some(number)
}

// A table with a decider that is handed over, or none.
fn hand_behind(t: Table, decider: Option<u64>) -> Result<Table, Refusal>
    requires { t ≡ table_in (table_of t) }
    ensures { JudgedAs (handed_of (who_of decider) (table_of t)) result }
{
    let Some(d) = decider else {
        return Ok(Table { decider: None, ..t });
    };
    if let Some(wrong) = decider_wrong(t.count, d) {
        let at = widths::ops_end(t.modes, t.ops, t.count);
        return Err(Refusal::Range(at, at + wrong));
    }
    Ok(Table {
        decider: Some(d as usize),
        ..t
    })
}

// The same of a table whose numbers before are judged.
pub fn hand(judged: Result<Table, Refusal>, decider: Option<u64>) -> Result<Table, Refusal>
    requires { Tidy judged }
    ensures { JudgedAs (going_on judged (handed_of (who_of decider))) result }
{
    hand_behind(judged?, decider)
}
