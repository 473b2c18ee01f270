// The work of each function for C: the answer, and what its caller is told of it.
#![tactic(auto)]

ghost use Rattle.figures.specs.Figures.{figures_of};
ghost use Rattle.handed.specs.Handed.{numbers_of};
ghost use Rattle.telling.specs.Telling.{ended};
ghost use Rattle.calls.specs.Calls.{JudgeTells, NumbersTell, WriteEnds, PlanEnds, FoldEnds, UnfoldEnds, PeriodTells, GapTells, BoardsTell, ValuesTell, MarginEnds};

use handed::Numbers;

// A table's bytes, judged.
pub fn judge(s: &[u8], a: &mut u64, b: &mut u64) -> u32
    ensures { JudgeTells s.now (figures_of result a.new b.new) }
{
    // `.and(Ok(()))`, not `.map(|_| ())`: `and` gives an equation, on which the law `judged_told` stands, and `map` two cases.
    let verdict = reading::read(s).and(Ok(()));
    telling::tell(telling::verdict_told(verdict), a, b)
}

// A table that is handed over as numbers, judged.
pub fn judge_numbers(n: Numbers, a: &mut u64, b: &mut u64) -> u32
    ensures { NumbersTell (numbers_of n.entry) (figures_of result a.new b.new) }
{
    let outcome = handed::judge(n).and(Ok(()));
    telling::tell(telling::verdict_told(outcome), a, b)
}

// A table that is handed over as numbers, judged and written.
pub fn write(n: Numbers, out: &mut [u8], a: &mut u64, b: &mut u64) -> u32
    ensures { WriteEnds (numbers_of n.entry) out.old (ended (figures_of result a.new b.new) out.new) }
{
    let table = planner::write_table(n, out);
    telling::tell(telling::answer_told(table), a, b)
}

// The period of a table.
pub fn period(s: &[u8], a: &mut u64, b: &mut u64) -> u32
    ensures { PeriodTells s.now (figures_of result a.new b.new) }
{
    let found = planner::period_of(s);
    telling::tell(telling::found_told(found), a, b)
}

// The gap of a table.
pub fn gap(s: &[u8], a: &mut u64, b: &mut u64) -> u32
    ensures { GapTells s.now (figures_of result a.new b.new) }
{
    let found = planner::gap_of(s);
    telling::tell(telling::found_told(found), a, b)
}

// Whether the boards of a table fit at a period.
pub fn boards_fit(s: &[u8], q: u64, a: &mut u64, b: &mut u64) -> u32
    ensures { BoardsTell s.now q (figures_of result a.new b.new) }
{
    let truth = planner::boards_fit(s, q);
    telling::tell(telling::truth_told(truth), a, b)
}

// Whether the values of a table arrive at a period.
pub fn values_arrive(s: &[u8], q: u64, a: &mut u64, b: &mut u64) -> u32
    ensures { ValuesTell s.now q (figures_of result a.new b.new) }
{
    let truth = planner::values_arrive(s, q);
    telling::tell(telling::truth_told(truth), a, b)
}

// The reply to a table: its period and rows.
pub fn plan(s: &[u8], out: &mut [u8], a: &mut u64, b: &mut u64) -> u32
    ensures { PlanEnds s.now out.old (ended (figures_of result a.new b.new) out.new) }
{
    let reply = planner::plan(s, out);
    telling::tell(telling::answer_told(reply), a, b)
}

// The text that the program `fold` prints for a table.
pub fn fold(s: &[u8], out: &mut [u8], a: &mut u64, b: &mut u64) -> u32
    ensures { FoldEnds s.now out.old (ended (figures_of result a.new b.new) out.new) }
{
    let text = planner::fold(s, out);
    telling::tell(telling::answer_told(text), a, b)
}

// The starts that a reply's rows came from.
pub fn unfold(s: &[u8], out: &mut [u8], a: &mut u64, b: &mut u64) -> u32
    ensures { UnfoldEnds s.now out.old (ended (figures_of result a.new b.new) out.new) }
{
    let starts = planner::unfold(s, out);
    telling::tell(telling::answer_told(starts), a, b)
}

// The margin of two operations of a table.
pub fn margin(
    s: &[u8],
    i: u64,
    j: u64,
    n: u64,
    q: u64,
    margin: &mut i32,
    a: &mut u64,
    b: &mut u64,
) -> u32
    ensures { MarginEnds s.now i j n q margin.old (ended (figures_of result a.new b.new) margin.new) }
{
    let measured = planner::margin(s, i, j, n, q);
    telling::tell(telling::measured_told(measured, margin), a, b)
}
