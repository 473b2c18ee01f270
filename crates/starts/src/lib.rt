// A reply's bytes, read field by field in document 01's order, and unfolded: the starts that its rows came from.
#![tactic(auto)]

ghost use Rattle.std.specs.Prelude.{◌≡◌, ◌+◌, ◌*◌, ◌<◌, ◌≤◌, length};
ghost use Rattle.rules.specs.Rows.{ticks, unfold_at};
ghost use Rattle.rules.specs.Verdicts.{accepted};
ghost use Rattle.rules.specs.Bytes.{num16, row_at};
ghost use Rattle.rules.specs.Judge.{repeat_test, row_wrong, rows_from, judge_reply};
ghost use Rattle.rules.specs.Answers.{IsUnfold};
ghost use Rattle.fields.specs.Verdicts.{answered, leaving};
ghost use Rattle.rows.specs.Rows.{ticks_of, row_of};
ghost use Rattle.starts.specs.Starts.{heard, Unfolds, StartsStored};

use fields::Refusal;
use rows::{Cycles, Row, Ticks};

// ---- a reply's bytes, judged

// The row whose field is at a place.
fn row_at(s: &[u8], at: usize) -> Row
    requires { at + 7 ≤ length s.now }
    ensures { (row_of result ≡ row_at s.now at) × (result.start.0 < 65536) × (result.fst.0 < 65536) }
{
    Row {
        start: Ticks(fields::be16(s, at + 3)),
        fst: Cycles(fields::be16(s, at + 5)),
    }
}

// The field of a row at a place inside the input, when `left` more may come.
fn row_test(s: &[u8], at: usize, left: usize, q: Ticks) -> Result<(), Refusal>
    requires { (at < length s.now) × (q.0 < 65536) }
    ensures { answered result ≡ repeat_test s.now at left 18 4 (row_wrong (ticks_of q) (row_at s.now at)) }
{
    reader::repeated_at(s, at, left, 18, 4)?;
    fields::range_test(rows::row_wrong(q, row_at(s, at)), at)
}

// The rows up to the end of the input.
fn rows_test(s: &[u8], q: Ticks) -> Result<(), Refusal>
    requires { q.0 < 65536 }
    ensures { answered result ≡ heard (rows_from (ticks_of q) s.now 32 5) }
{
    // Counted down: over `step_by(7).enumerate()` an invariant is told the state of the two iterators, and neither the place nor the count by a name.
    let mut left: usize = 32;
    for at in (5..s.len()).step_by(7) {
        row_test(s, at, left, q)?;
        left -= 1;
    }
    Ok(())
}

// The period of a reply.
fn period_of(s: &[u8]) -> Ticks
    requires { 5 ≤ length s.now }
    ensures { (result.0 ≡ num16 s.now 3) × (result.0 < 65536) }
{
    Ticks(fields::be16(s, 3))
}

// The verdict on a reply's bytes.
pub fn judge(s: &[u8]) -> Result<(), Refusal>
    ensures { answered result ≡ heard (judge_reply s.now) }
{
    heads::len_test(s, 17)?;
    if s.len() <= 5 {
        return Err(Refusal::Order(5));
    }
    rows_test(s, period_of(s))
}

// ---- the starts, written

// The start that the row at a place came from.
pub fn start_at(s: &[u8], at: usize) -> Ticks
    requires { (5 ≤ length s.now) × (at + 7 ≤ length s.now) }
    ensures { ticks_of result ≡ unfold_at (ticks (num16 s.now 3)) (row_at s.now at) }
{
    rows::unfold(period_of(s), row_at(s, at))
}

// The starts of all n rows, from the front of the buffer.
fn put_starts(s: &[u8], out: &mut [u8], n: usize)
    requires { (length s.now ≡ 5 + 7 * n) × (2 * n ≤ length out.old) }
    ensures { StartsStored s.now n out.old out.new }
{
    for i in 0..n {
        let start = start_at(s, 5 + 7 * i);
        puts::put16(out, 2 * i, start.0);
    }
}

// The starts of a reply that is accepted, or ROOM.
#[tactic(auto, using(crate::specs::StartLaws::heard_size))]
fn unfold_reply(s: &[u8], out: &mut [u8]) -> Result<usize, Refusal>
    requires { heard (judge_reply s.now) ≡ accepted tt }
    ensures { Unfolds s.now out.old (leaving (answered result) out.new) }
{
    let n = (s.len() - 5) / 7;
    if out.len() < 2 * n {
        return Err(Refusal::Room(2 * n));
    }
    put_starts(s, out, n);
    Ok(2 * n)
}

// The starts that a reply's rows came from, 2 bytes each. On a refusal every byte of the buffer stays.
pub fn unfold(s: &[u8], out: &mut [u8]) -> Result<usize, Refusal>
    ensures { IsUnfold s.now out.old (leaving (answered result) out.new) }
{
    judge(s)?;
    unfold_reply(s, out)
}
