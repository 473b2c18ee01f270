// The bound of the values: the smallest period at which every value that a later cycle takes over has been written in time. Only `values_bound`
// takes the table; the rest goes by lent columns and followers, and visits only the operations that use a cell.
#![tactic(auto)]

ghost use Rattle.std.specs.Prelude.{◌≡◌, ◌<◌, ◌≤◌, get_or};
ghost use Rattle.rules.specs.Table.{Table, Accepted};
ghost use Rattle.columns.specs.Columns.{Columns, Short};
ghost use Rattle.turns.specs.Turns.{TurnsOf};
ghost use Rattle.cells.specs.Cells.{ended_in, FreshSets, Early};
ghost use Rattle.raises.specs.Raises.{Raised};
ghost use Rattle.values.specs.Bounds.{IsBound, TurnsFine, WriterFine, CellFine};

use columns::Dated;
use sets::Members;

// ---- distances

// The bound, raised at every distance by what is written at `end` in one of the modes `from`, until it is written over: an idle mode hides
// nothing. The search ends where n + 1 cycles of the bound itself take until `end`, for the reader that starts first, and so before the
// distance `end`; or where no mode is new: a reader in a mode that was seen before asked for more then than it would now.
pub fn ask_turns(
    cols: &[Dated; 32],
    follow: &[u32],
    readers: u32,
    fresh: &[u32; 32],
    written: u32,
    from: u32,
    end: u32,
    early: u32,
    bound: u32,
) -> u32
    requires { Short cols.now × Early cols.now readers early × (end ≤ 1000) × (1 ≤ bound) × (bound ≤ 1000) }
    ensures { Raised bound (TurnsFine follow.now cols.now readers (λ j. get_or fresh.now j 0) written end 0 from) result }
{
    let mut modes = from;
    let mut seen: u32 = 0;
    let mut most = bound;
    for n in 0..end {
        if end <= early + (n + 1) * most {
            return most;
        }
        let next = sets::step(follow, modes);
        if sets::without(next, seen) == 0 {
            return most;
        }
        most = arrivals::ask_readers(cols, readers, fresh, next, end, n, most);
        seen |= next;
        modes = sets::without(next, written);
    }
    most
}

// ---- writers and cells

// The bound, raised by what operation i writes into a cell, from the reached modes in which it is the last to write it. Mostly the bound is
// long enough for every reader already, and no turn has to be made.
fn ask_writer(
    cols: &[Dated; 32],
    follow: &[u32],
    reached: u32,
    writers: u32,
    readers: u32,
    fresh: &[u32; 32],
    written: u32,
    early: u32,
    i: usize,
    bound: u32,
) -> u32
    requires { Short cols.now × Early cols.now readers early × FreshSets cols.now writers readers fresh.now
        × (written ≡ ended_in cols.now writers 0 1000) × (i < 32) × (1 ≤ bound) × (bound ≤ 1000) }
    ensures { Raised bound (WriterFine follow.now cols.now reached writers readers i) result }
{
    let end = columns::end(cols, i);
    if end <= early + bound {
        return bound;
    }
    let last = cells::last_in(cols, writers, i);
    ask_turns(
        cols,
        follow,
        readers,
        fresh,
        written,
        reached & last,
        end,
        early,
        bound,
    )
}

// The bound, raised by every value of a cell. Where nobody writes it or nobody reads it, no value is asked for.
fn ask_cell(
    cols: &[Dated; 32],
    follow: &[u32],
    reached: u32,
    writers: u32,
    readers: u32,
    bound: u32,
) -> u32
    requires { Short cols.now × (1 ≤ bound) × (bound ≤ 1000) }
    ensures { Raised bound (CellFine follow.now cols.now reached writers readers) result }
{
    if writers == 0 {
        return bound;
    }
    let written = cells::ended_within(cols, writers, 0, 1000);
    let fresh = cells::fresh_sets(cols, writers, readers);
    let early = cells::earliest(cols, readers);
    let mut most = bound;
    for m in Members(writers) {
        let i = m as usize;
        most = ask_writer(
            cols, follow, reached, writers, readers, &fresh, written, early, i, most,
        );
    }
    most
}

// The smallest period at which every value is in time, for runs through the modes `reached`.
pub fn values_bound(follow: &[u32], cols: &[Dated; 32], count: u32, reached: u32) -> u32
    requires { Short cols.now × (count ≤ 32) }
    ensures { (T : Table) → Accepted T → Columns T cols.now → TurnsOf T follow.now → T.cells ≡ count → IsBound T reached result }
{
    let readers = cells::turned(cols, |o| o.reads);
    let writers = cells::turned(cols, |o| o.writes);
    let mut bound: u32 = 1;
    for c in 0..count as usize {
        bound = ask_cell(cols, follow, reached, writers[c], readers[c], bound);
    }
    bound
}
