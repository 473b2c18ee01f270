// The first period at which the boards are right: distance by distance, every period is marked at which two operations that can run so many
// cycles apart would hold one board at once.
#![tactic(auto)]

ghost use Rattle.std.specs.Prelude.{◌≡◌, List, [], ℕ, ◌+◌, ◌<◌, ◌≤◌, length, get_or};
ghost use Rattle.columns.specs.Columns.{Short};
ghost use Rattle.turns.specs.Turns.{TurnsBy};
ghost use Rattle.boards.specs.Boards.{EndsBy, Sized, Swept, FirstRight};

use columns::Dated;

// One distance more: all that is wrong n + 1 cycles apart is marked, and the first period that is not marked is given back.
fn sweep_distance(
    wrong: &mut [u8; 1000],
    later: &mut [u32; 32],
    cols: &[Dated; 32],
    row: &[u32; 32],
    reached: u32,
    len: u32,
    n: u32,
    q: u32,
) -> u32
    requires { Sized len q later.old wrong.old × Short cols.now × (n ≤ 1000) }
    ensures { Sized len result later.new wrong.new
        × ((F : List ℕ) (b : ℕ) → TurnsBy F n row.now → Swept F cols.now reached len b n q later.old wrong.old
        → Swept F cols.now reached len b (n + 1) result later.new wrong.new) }
{
    sweeps::mark_distance(wrong, later, cols, row, reached, n, q);
    sweeps::first_unmarked(wrong, len, q)
}

// Sixteen distances, from done + 1 on, by their rows. It may end early: where so many cycles take until the end of the table, or where no
// operation may meet another any more, nothing is wrong at any further distance.
fn sweep_block(
    wrong: &mut [u8; 1000],
    later: &mut [u32; 32],
    cols: &[Dated; 32],
    rows: [[u32; 32]; 16],
    reached: u32,
    len: u32,
    done: u32,
    q: u32,
) -> u32
    requires { Sized len q later.old wrong.old × Short cols.now × EndsBy cols.now len × (done ≤ 1000) }
    ensures { Sized len result later.new wrong.new
        × ((F : List ℕ) (b : ℕ) → ((k : ℕ) → k < 16 → TurnsBy F (done + k) (get_or rows k []))
        → Swept F cols.now reached len b done q later.old wrong.old
        → Swept F cols.now reached len b (done + 16) result later.new wrong.new) }
{
    let mut first = q;
    for (k, row) in rows.iter().enumerate() {
        let n = done + k as u32;
        if len <= (n + 1) * first {
            return first;
        }
        if laters::none_left(later) {
            return first;
        }
        first = sweep_distance(wrong, later, cols, row, reached, len, n, first);
    }
    first
}

// All further distances, a block of rows after the other: it ends by what is left, not at a count.
fn sweep_rest(
    wrong: &mut [u8; 1000],
    later: &mut [u32; 32],
    cols: &[Dated; 32],
    follow: &[u32; 32],
    reached: u32,
    len: u32,
    q: u32,
) -> u32
    requires { Sized len q later.old wrong.old × Short cols.now × EndsBy cols.now len × (length follow.now ≡ 32) }
    ensures { (b : ℕ) → Swept follow.now cols.now reached len b 1 q later.old wrong.old
        → FirstRight follow.now cols.now reached len b result }
{
    let mut first = q;
    let mut last = *follow;
    let mut done: u32 = 1;
    loop {
        if len <= (done + 1) * first {
            break;
        }
        if laters::none_left(later) {
            break;
        }
        let rows = turns::block(follow, &last);
        first = sweep_block(wrong, later, cols, rows, reached, len, done, first);
        last = rows[15];
        done += 16;
    }
    first
}

// The first period from `bound` on at which the boards are right, for runs through the modes `reached`. The row of one turn is the followers
// themselves, so that a block of rows is made only where a second distance counts.
pub fn first_right(
    follow: &[u32; 32],
    cols: &[Dated; 32],
    len: u32,
    reached: u32,
    bound: u32,
) -> u32
    requires { (length follow.now ≡ 32) × Short cols.now × EndsBy cols.now len × (len ≤ 1000) × (1 ≤ bound) × (bound ≤ len) }
    ensures { FirstRight follow.now cols.now reached len bound result }
{
    let mut later = laters::later_sets(cols, bound);
    let mut wrong = [0u8; 1000];
    let q = sweep_distance(&mut wrong, &mut later, cols, follow, reached, len, 0, bound);
    sweep_rest(&mut wrong, &mut later, cols, follow, reached, len, q)
}
