// One distance of the sweep: all that is wrong so many cycles apart is marked, and the first period that is not marked is found.
#![tactic(auto)]

ghost use Rattle.std.specs.Prelude.{◌≡◌, ◌<◌, ◌≤◌, length};
ghost use Rattle.theory.specs.Tests.{step};
ghost use Rattle.columns.specs.Columns.{Short};
ghost use Rattle.marks.specs.Marks.{Adds, Keeps, HitBy};
ghost use Rattle.sweeps.specs.Sweeps.{modes_after, AllKept, HitAny, FirstUnmarked};

use columns::Dated;

// The periods from q on at which one of a set wants a board of operation i, n + 1 cycles later, as the row says; `reached` has the modes that
// a run can reach. Those of the set that still count are given back.
fn mark_set(
    wrong: &mut [u8; 1000],
    cols: &[Dated; 32],
    row: &[u32; 32],
    reached: u32,
    i: usize,
    set: u32,
    n: u32,
    q: u32,
) -> u32
    requires { (length wrong.old ≡ 1000) × (i < 32) × Short cols.now × (n ≤ 1000) × (q ≤ 1000) }
    ensures { Keeps cols.now i n q set result
        × Adds wrong.old (λ x. (q ≤ x) × HitBy cols.now i (modes_after cols.now row.now reached i) n set x) wrong.new }
{
    if set == 0 {
        return 0;
    }
    let after = sets::step(row, reached & columns::modes(cols, i));
    marks::mark_op(wrong, cols, i, set, after, n, q)
}

// The same for every operation, with its own set.
pub fn mark_distance(
    wrong: &mut [u8; 1000],
    later: &mut [u32; 32],
    cols: &[Dated; 32],
    row: &[u32; 32],
    reached: u32,
    n: u32,
    q: u32,
)
    requires { (length wrong.old ≡ 1000) × (length later.old ≡ 32) × Short cols.now × (n ≤ 1000) × (q ≤ 1000) }
    ensures { (length later.new ≡ 32) × AllKept cols.now n q 32 later.old later.new
        × Adds wrong.old (λ x. (q ≤ x) × HitAny cols.now row.now reached n later.old 32 x) wrong.new }
{
    for (i, set) in later.iter_mut().enumerate() {
        *set = mark_set(wrong, cols, row, reached, i, *set, n, q);
    }
}

// The first period from q on that is not marked, and the table's length if all are.
pub fn first_unmarked(wrong: &[u8; 1000], len: u32, q: u32) -> u32
    requires { (len ≤ 1000) × (q ≤ len) }
    ensures { FirstUnmarked wrong.now len q result }
{
    for x in q..len {
        if wrong[x as usize] != 1 {
            return x;
        }
    }
    len
}
