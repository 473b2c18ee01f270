// For each operation the set of those that may meet it on a board in a later cycle.
#![tactic(auto)]

ghost use Rattle.std.specs.Prelude.{◌≡◌, true, ◌↔◌, ◌<◌, ◌≤◌, length};
ghost use Rattle.columns.specs.Columns.{Short};
ghost use Rattle.laters.specs.Laters.{MayMeet, LaterOf, AllLater, AllEmpty};

use columns::Dated;

// Operation j shares a board with i, and starts one cycle of q later before i has let go of it. (By `&`: both are asked without a branch.)
fn may_meet(cols: &[Dated; 32], i: usize, j: usize, q: u32) -> bool
    requires { (i < 32) × (j < 32) × Short cols.now × (q ≤ 1000) }
    ensures { (result ≡ true) ↔ MayMeet cols.now i q j }
{
    let shared = sets::meets(columns::boards(cols, i), columns::boards(cols, j));
    shared & (columns::start(cols, j) + q < columns::held(cols, i))
}

// All that may meet operation i. Where there is no operation i there is no board of it, and none is asked.
pub fn later_of(cols: &[Dated; 32], i: usize, q: u32) -> u32
    requires { (i < 32) × Short cols.now × (q ≤ 1000) }
    ensures { LaterOf cols.now i q 32 result }
{
    if columns::boards(cols, i) == 0 {
        return 0;
    }
    let mut all: u32 = 0;
    for j in 0..32 {
        if may_meet(cols, i, j as usize, q) {
            all = sets::with(all, j);
        }
    }
    all
}

// The same for each operation.
pub fn later_sets(cols: &[Dated; 32], q: u32) -> [u32; 32]
    requires { Short cols.now × (q ≤ 1000) }
    ensures { (length result ≡ 32) × AllLater cols.now q 32 result }
{
    let mut later = [0u32; 32];
    for (i, set) in later.iter_mut().enumerate() {
        *set = later_of(cols, i, q);
    }
    later
}

// No operation may meet another any more.
pub fn none_left(later: &[u32; 32]) -> bool
    ensures { (result ≡ true) ↔ AllEmpty later.now }
{
    later.iter().all(|set| *set == 0)
}
