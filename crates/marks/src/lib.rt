// Periods at which the boards are wrong, marked: each by the two operations that would hold one board at once some cycles apart.
#![tactic(auto)]

ghost use Rattle.std.specs.Prelude.{◌≡◌, true, ◌↔◌, ◌<◌, ◌≤◌, length};
ghost use Rattle.columns.specs.Columns.{op_by, Short};
ghost use Rattle.marks.specs.Marks.{Adds, Meets, Near, Keeps, Hits, HitBy};

use columns::Dated;
use sets::Members;

// The numbers from one up to but not including another. The marks are bytes and no bools: a byte that is neither 0 nor 1 is no mark, which
// docs/PROMISES.md says of `mark_op` and of `sweeps::mark_distance`.
fn mark(wrong: &mut [u8; 1000], from: u32, to: u32)
    requires { (length wrong.old ≡ 1000) × (to ≤ 1000) }
    ensures { Adds wrong.old (λ x. (from ≤ x) × (x < to)) wrong.new }
{
    for x in from..to {
        wrong[x as usize] = 1;
    }
}

// The periods from q on at which operation j, n + 1 cycles after i, runs while i holds its boards.
// Not put into its callers: the walk over the sets, most of which are empty, then keeps its count in a register.
#[inline(never)]
fn mark_pair(wrong: &mut [u8; 1000], cols: &[Dated; 32], i: usize, j: usize, n: u32, q: u32)
    requires { (length wrong.old ≡ 1000) × (i < 32) × (j < 32) × Short cols.now × (n ≤ 1000) × (q ≤ 1000) }
    ensures { Adds wrong.old (λ x. (q ≤ x) × Meets (op_by cols.now i) (op_by cols.now j) n x) wrong.new }
{
    let lo = raises::in_time(columns::start(cols, i) + 1, columns::held(cols, j), n, q);
    let hi = raises::in_time(columns::held(cols, i), columns::start(cols, j), n, q);
    mark(wrong, lo, hi);
}

// The same where j can run in one of the modes `after`. Whether j still counts: who starts when i has let go of its boards does so at every
// further distance and every longer period.
fn mark_one(
    wrong: &mut [u8; 1000],
    cols: &[Dated; 32],
    i: usize,
    j: usize,
    after: u32,
    n: u32,
    q: u32,
) -> bool
    requires { (length wrong.old ≡ 1000) × (i < 32) × (j < 32) × Short cols.now × (n ≤ 1000) × (q ≤ 1000) }
    ensures { ((result ≡ true) ↔ Near (op_by cols.now i) (op_by cols.now j) n q)
        × Adds wrong.old (λ x. (q ≤ x) × Hits cols.now i after n j x) wrong.new }
{
    if columns::held(cols, i) <= columns::start(cols, j) + (n + 1) * q {
        return false;
    }
    if !sets::meets(after, columns::modes(cols, j)) {
        return true;
    }
    mark_pair(wrong, cols, i, j, n, q);
    true
}

// The same for each operation of a set; those that still count are given back.
pub fn mark_op(
    wrong: &mut [u8; 1000],
    cols: &[Dated; 32],
    i: usize,
    set: u32,
    after: u32,
    n: u32,
    q: u32,
) -> u32
    requires { (length wrong.old ≡ 1000) × (i < 32) × Short cols.now × (n ≤ 1000) × (q ≤ 1000) }
    ensures { Keeps cols.now i n q set result
        × Adds wrong.old (λ x. (q ≤ x) × HitBy cols.now i after n set x) wrong.new }
{
    let mut keep = set;
    for m in Members(set) {
        if !mark_one(wrong, cols, i, m as usize, after, n, q) {
            keep = sets::rest(keep, m);
        }
    }
    keep
}
