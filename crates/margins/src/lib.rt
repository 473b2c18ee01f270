// The margin of two operations, asked of a table's bytes.
#![tactic(auto)]

ghost use Rattle.std.specs.Prelude.{◌≡◌, ◌^◌, ◌<◌, ◌≤◌, pos, ◌-ℤ◌};
ghost use Rattle.rules.specs.Table.{held_to};
ghost use Rattle.rules.specs.Verdicts.{accepted, ◌then◌};
ghost use Rattle.rules.specs.Rows.{margin};
ghost use Rattle.rules.specs.Answers.{margin_test, IsMargin};
ghost use Rattle.fields.specs.Verdicts.{answered};
ghost use Rattle.table.specs.Tables.{op_of, table_of, Good};
ghost use Rattle.margins.specs.Margins.{gap};

use fields::Refusal;
use table::{Op, Table};

// One signed subtraction.
fn diff(later: u32, end: u32) -> i32
    requires { (later < 2 ^ 31) × (end < 2 ^ 31) }
    ensures { result ≡ (pos later -ℤ pos end) }
{
    (later as i32) - (end as i32)
}

// n·q less what o ends after u starts.
fn measure(o: Op, u: Op, n: u32, q: u32) -> i32
    requires { (n ≤ 1000) × (q ≤ 1000) × (held_to (op_of o) ≤ 1000) × (u.start ≤ 1000) }
    ensures { result ≡ gap n q o u }
{
    let later = n * q + u.start;
    let end = table::end_of(o) as u32;
    diff(later, end)
}

// The margin of operations i and j of an accepted table, or ASK.
fn margin_of(t: Table, i: u64, j: u64, n: u64, q: u64) -> Result<i32, Refusal>
    requires { Good t }
    ensures { answered result ≡ (margin_test (table_of t) i j n q then accepted (margin (table_of t) i j n q)) }
{
    let count = t.count as u64;
    if count <= i {
        return Err(Refusal::Ask(0));
    }
    if count <= j {
        return Err(Refusal::Ask(1));
    }
    if !asks::in_range(n, 1000) {
        return Err(Refusal::Ask(2));
    }
    if !asks::in_range(q, t.len as u64) {
        return Err(Refusal::Ask(3));
    }
    let a = i as usize;
    let b = j as usize;
    Ok(measure(t.ops[a], t.ops[b], n as u32, q as u32))
}

// The margin of operations i and j at distance n and period q.
pub fn margin(s: &[u8], i: u64, j: u64, n: u64, q: u64) -> Result<i32, Refusal>
    ensures { IsMargin s.now i j n q (answered result) }
{
    let t = reading::read(s)?;
    margin_of(t, i, j, n, q)
}
