// Rows: dates in ticks and start indices in cycles, kept apart; fold and unfold convert by the period only.
#![tactic(auto)]

ghost use Rattle.std.specs.Prelude.{◌≡◌, ◌≤◌};
ghost use Rattle.rules.specs.Rows.{fold_at, unfold_at};
ghost use Rattle.rules.specs.Judge.{row_wrong};
ghost use Rattle.fields.specs.Fields.{IsPlace};
ghost use Rattle.rows.specs.Rows.{ticks_of, row_of, InFields};

// The latest start that a row can come from.
const LATEST: u32 = 999;

// A date.
#[derive(Clone, Copy, PartialEq, Eq, PartialOrd, Ord, Debug)]
pub struct Ticks(pub u32);

// A start index.
#[derive(Clone, Copy, PartialEq, Eq, PartialOrd, Ord, Debug)]
pub struct Cycles(pub u32);

#[derive(Clone, Copy, PartialEq, Eq, Debug)]
pub struct Row {
    pub start: Ticks,
    pub fst: Cycles,
}

// The row of a start, at the period q.
pub fn fold(q: Ticks, t: Ticks) -> Row
    requires { 1 ≤ q.0 }
    ensures { row_of result ≡ fold_at (ticks_of q) (ticks_of t) }
{
    Row {
        start: Ticks(t.0 % q.0),
        fst: Cycles(t.0 / q.0),
    }
}

// The start that a row came from.
pub fn unfold(q: Ticks, r: Row) -> Ticks
    requires { InFields q r }
    ensures { ticks_of result ≡ unfold_at (ticks_of q) (row_of r) }
{
    Ticks(r.fst.0 * q.0 + r.start.0)
}

// Which number of a reply's row is wrong first, if one is: where it begins in its field. The folded start is below the period, the unfolded start
// at most 999, and that blames the start index.
pub fn row_wrong(q: Ticks, r: Row) -> Option<usize>
    requires { InFields q r }
    ensures { IsPlace result (row_wrong (ticks_of q) (row_of r)) }
{
    if q <= r.start {
        return Some(3);
    }
    if LATEST < unfold(q, r).0 {
        return Some(5);
    }
    None
}
