// A table's bytes, read field by field in document 01's order, with the decider's field behind them, and then judged as a whole.
#![tactic(auto)]

ghost use Rattle.std.specs.Prelude.{◌≡◌};
ghost use Rattle.rules.specs.Verdicts.{accepted};
ghost use Rattle.rules.specs.Judge.{head_test, judge};
ghost use Rattle.table.specs.Tables.{JudgedAs};
ghost use Rattle.reading.specs.Reading.{done_at, ops_verdict, fields_verdict};

use fields::Refusal;
use ranges::Counts;
use table::Table;

// ---- the operations

// Whether they end at a place: with the input, or at a field 05 behind the first of them.
fn ops_done(s: &[u8], at: usize, first: usize) -> bool
    ensures { result ≡ done_at first s.now at }
{
    if s.len() <= at {
        return true;
    }
    if at <= first {
        return false;
    }
    s[at] == 5
}

// The operations up to where they end, behind a head that is judged: from field to field by each one's own length. Each is stored where it belongs: the
// table is not copied for it. Each field has its own length, so the place is moved by that, and no step over the bytes is.
fn read_ops(s: &[u8]) -> Result<Table, Refusal>
    requires { head_test s.now ≡ accepted tt }
    ensures { JudgedAs (ops_verdict s.now) result }
{
    let mut t = heads::read_head(s);
    let counts = Counts {
        len: t.len,
        boards: t.boards,
        cells: t.cells,
        modes: t.modes,
    };
    let first = table::ops_place(t.modes);
    let mut at = first;
    while !ops_done(s, at, first) {
        let k = t.count;
        let held = reading_ops::held_at(s, at);
        t.ops[k] = reading_ops::next_op(s, at, held, 32 - k, counts)?;
        t.count = k + 1;
        at += 3 + widths::size(held);
    }
    Ok(t)
}

// ---- the whole input

// The table that the bytes hold up to its operations, if every field passes.
// Not put into its caller, so that its tables are off the stack again before the whole is judged.
#[inline(never)]
fn read_fields(s: &[u8]) -> Result<Table, Refusal>
    ensures { JudgedAs (fields_verdict s.now) result }
{
    heads::head_test(s)?;
    read_ops(s)
}

// The table that the bytes hold, or the first refusal of all.
// Nor this, so that they are before the engine runs.
#[inline(never)]
pub fn read(s: &[u8]) -> Result<Table, Refusal>
    ensures { JudgedAs (judge s.now) result }
{
    whole::judge(deciders::read(s, read_fields(s)))
}
