// The functions for C, as include/trevozhil.h declares them. Each is one call.
#![tactic(auto)]

ghost use Rattle.figures.specs.Figures.{figures_of};
ghost use Rattle.handed.specs.Handed.{numbers};
ghost use Rattle.telling.specs.Telling.{ended};
ghost use Rattle.calls.specs.Calls.{JudgeTells, NumbersTell, WriteEnds, PlanEnds, FoldEnds, UnfoldEnds, PeriodTells, GapTells, BoardsTell, ValuesTell, MarginEnds};

use handed::Numbers;

// A table's bytes, judged.
#[unsafe(no_mangle)]
pub extern "C" fn trevozhil_judge(s: &[u8], a: &mut u64, b: &mut u64) -> u32
    ensures { JudgeTells s.now (figures_of result a.new b.new) }
{
    calls::judge(s, a, b)
}

// A table that is handed over as numbers, judged.
#[unsafe(no_mangle)]
pub extern "C" fn trevozhil_judge_numbers(
    p: u64,
    boards: u64,
    cells: u64,
    modes: u64,
    first: u64,
    follow: &[u64],
    ops: &[u64],
    holds: &[u64],
    mark: u64,
    decider: u64,
    a: &mut u64,
    b: &mut u64,
) -> u32
    ensures { NumbersTell (numbers p boards cells modes first follow.now ops.now holds.now mark decider) (figures_of result a.new b.new) }
{
    let n = Numbers {
        len: p,
        boards,
        cells,
        modes,
        first,
        follow,
        ops,
        holds,
        mark,
        decider,
    };
    calls::judge_numbers(n, a, b)
}

// A table that is handed over as numbers, judged and written.
#[unsafe(no_mangle)]
pub extern "C" fn trevozhil_write(
    p: u64,
    boards: u64,
    cells: u64,
    modes: u64,
    first: u64,
    follow: &[u64],
    ops: &[u64],
    holds: &[u64],
    mark: u64,
    decider: u64,
    out: &mut [u8],
    a: &mut u64,
    b: &mut u64,
) -> u32
    ensures { WriteEnds (numbers p boards cells modes first follow.now ops.now holds.now mark decider) out.old (ended (figures_of result a.new b.new) out.new) }
{
    let n = Numbers {
        len: p,
        boards,
        cells,
        modes,
        first,
        follow,
        ops,
        holds,
        mark,
        decider,
    };
    calls::write(n, out, a, b)
}

// The period of a table.
#[unsafe(no_mangle)]
pub extern "C" fn trevozhil_period(s: &[u8], a: &mut u64, b: &mut u64) -> u32
    ensures { PeriodTells s.now (figures_of result a.new b.new) }
{
    calls::period(s, a, b)
}

// The gap of a table.
#[unsafe(no_mangle)]
pub extern "C" fn trevozhil_gap(s: &[u8], a: &mut u64, b: &mut u64) -> u32
    ensures { GapTells s.now (figures_of result a.new b.new) }
{
    calls::gap(s, a, b)
}

// Whether the boards of a table fit at a period.
#[unsafe(no_mangle)]
pub extern "C" fn trevozhil_boards_fit(s: &[u8], q: u64, a: &mut u64, b: &mut u64) -> u32
    ensures { BoardsTell s.now q (figures_of result a.new b.new) }
{
    calls::boards_fit(s, q, a, b)
}

// Whether the values of a table arrive at a period.
#[unsafe(no_mangle)]
pub extern "C" fn trevozhil_values_arrive(s: &[u8], q: u64, a: &mut u64, b: &mut u64) -> u32
    ensures { ValuesTell s.now q (figures_of result a.new b.new) }
{
    calls::values_arrive(s, q, a, b)
}

// The reply to a table: its period and rows.
#[unsafe(no_mangle)]
pub extern "C" fn trevozhil_plan(s: &[u8], out: &mut [u8], a: &mut u64, b: &mut u64) -> u32
    ensures { PlanEnds s.now out.old (ended (figures_of result a.new b.new) out.new) }
{
    calls::plan(s, out, a, b)
}

// The text that the program `fold` prints for a table.
#[unsafe(no_mangle)]
pub extern "C" fn trevozhil_fold(s: &[u8], out: &mut [u8], a: &mut u64, b: &mut u64) -> u32
    ensures { FoldEnds s.now out.old (ended (figures_of result a.new b.new) out.new) }
{
    calls::fold(s, out, a, b)
}

// The starts that a reply's rows came from.
#[unsafe(no_mangle)]
pub extern "C" fn trevozhil_unfold(s: &[u8], out: &mut [u8], a: &mut u64, b: &mut u64) -> u32
    ensures { UnfoldEnds s.now out.old (ended (figures_of result a.new b.new) out.new) }
{
    calls::unfold(s, out, a, b)
}

// The margin of two operations of a table.
#[unsafe(no_mangle)]
pub extern "C" fn trevozhil_margin(
    s: &[u8],
    i: u64,
    j: u64,
    n: u64,
    q: u64,
    margin: &mut i32,
    a: &mut u64,
    b: &mut u64,
) -> u32
    ensures { MarginEnds s.now i j n q margin.old (ended (figures_of result a.new b.new) margin.new) }
{
    calls::margin(s, i, j, n, q, margin, a, b)
}
