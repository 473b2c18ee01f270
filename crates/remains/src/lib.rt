// A row: for each mode the most ticks that are left of a use when a cycle of that mode starts, made of what waits in the ring.
#![tactic(auto)]

ghost use Rattle.std.specs.Prelude.{◌≡◌, ℕ, ◌-◌, ◌<◌, length, get_or};
ghost use Rattle.rules.specs.Places.{sum};
ghost use Rattle.rules.specs.Table.{Table, Accepted};
ghost use Rattle.lives.specs.Left.{Low, IsRow};
ghost use Rattle.remains.specs.Remains.{Lifted, Spread, PassedOn, Settled, FollowsOf, IdleOf, RingOf};

use sets::Members;

// The entries of a set of modes, raised to a number.
fn raise(row: &mut [u32; 32], modes: u32, x: u32)
    requires { length row.old ≡ 32 }
    ensures { Lifted modes x row.old row.new }
{
    for m in Members(modes) {
        let i = m as usize;
        row[i] = row[i].max(x);
    }
}

// What one mode has, less a period, handed on to those that follow it: where no more than a period is left, nothing.
fn hand_on(row: &mut [u32; 32], modes: u32, x: u32, q: u32)
    requires { length row.old ≡ 32 }
    ensures { Lifted modes (x - q) row.old row.new }
{
    if x <= q {
        return;
    }
    raise(row, modes, x - q);
}

// What waits in the ring for this row, less a period, at each mode that follows.
fn spread(ring: &[u32; 1056], slot: usize, follow: &[u32; 32], q: u32) -> [u32; 32]
    requires { (slot < 33) × Low ring.now 1056 }
    ensures { (length result ≡ 32) × Low result 32 × Spread ring.now slot follow.now q 32 result }
{
    let mut row = [0u32; 32];
    for (m, modes) in follow.iter().enumerate() {
        hand_on(&mut row, *modes, ring[32 * slot + m], q);
    }
    row
}

// All that is left in a row: it grows as long as something is handed on.
fn total(row: &[u32; 32]) -> u32
    requires { Low row.now 32 }
    ensures { result ≡ sum (λ b. get_or row.now b 0) 32 }
{
    row.iter().sum()
}

// The modes that write nothing hand on what they have, less a period: once round.
fn pass(row: &mut [u32; 32], follow: &[u32; 32], idle: u32, q: u32)
    requires { (length row.old ≡ 32) × Low row.old 32 }
    ensures { PassedOn follow.now idle q row.old row.new }
{
    for m in Members(idle) {
        let i = m as usize;
        let x = row[i];
        hand_on(row, follow[i], x, q);
    }
}

// The same until nothing is new: there is no number to count.
fn settle(row: [u32; 32], follow: &[u32; 32], idle: u32, q: u32) -> [u32; 32]
    requires { (length row ≡ 32) × Low row 32 }
    ensures { Settled follow.now idle q row result }
{
    let mut next = row;
    let mut all = total(&next);
    loop {
        pass(&mut next, follow, idle, q);
        let more = total(&next);
        if more == all {
            break;
        }
        all = more;
    }
    next
}

// The row that stands in the ring at `slot`.
pub fn next_row(ring: &[u32; 1056], slot: usize, follow: &[u32; 32], idle: u32, q: u32) -> [u32; 32]
    requires { (slot < 33) × Low ring.now 1056 }
    ensures { (length result ≡ 32) × Low result 32 × ((T : Table) (c s : ℕ) → Accepted T → FollowsOf T follow.now → IdleOf T c idle → RingOf T q c s slot ring.now → IsRow T q c s (λ b. get_or result b 0)) }
{
    settle(spread(ring, slot, follow, q), follow, idle, q)
}
