// Turns: the modes that a run can reach, and the modes that may stand n cycles after a mode, for sixteen distances at a time.
#![tactic(auto)]

ghost use Rattle.std.specs.Prelude.{◌≡◌, true, length};
ghost use Rattle.rules.specs.Table.{Table, Accepted};
ghost use Rattle.theory.specs.Walks.{IsReach};
ghost use Rattle.turns.specs.Turns.{next_row, block_from, TurnsOf};

// The modes that a run can reach: the first modes, and what follows until nothing is new.
pub fn reached(follow: &[u32], first: u32) -> u32
    ensures { (T : Table) → Accepted T → TurnsOf T follow.now → T.first ≡ first → IsReach T result }
{
    let mut all = first;
    loop {
        let more = all | sets::step(follow, all);
        if more.count_ones() == all.count_ones() {
            break;
        }
        all = more;
    }
    all
}

// One turn more, in front: a follower k of m brings what the row has for k.
fn next_row(follow: &[u32; 32], row: &[u32; 32]) -> [u32; 32]
    ensures { result ≡ next_row follow.now row.now }
{
    let mut out = [0u32; 32];
    for (m, set) in out.iter_mut().enumerate() {
        *set = sets::step(row, follow[m]);
    }
    out
}

// One turn more; a row that is its own next row stays.
fn row_on(follow: &[u32; 32], row: &[u32; 32], still: bool) -> [u32; 32]
    requires { still ≡ true → next_row follow.now row.now ≡ row.now }
    ensures { result ≡ next_row follow.now row.now }
{
    if still {
        return *row;
    }
    next_row(follow, row)
}

// A row with 1, 2, .., 16 turns more.
pub fn block(follow: &[u32; 32], row: &[u32; 32]) -> [[u32; 32]; 16]
    requires { length row.now ≡ 32 }
    ensures { result ≡ block_from follow.now row.now }
{
    let mut rows = [[0u32; 32]; 16];
    let mut last = *row;
    let mut still = false;
    for entry in &mut rows {
        let next = row_on(follow, &last, still);
        still = still || next == last;
        last = next;
        *entry = last;
    }
    rows
}
