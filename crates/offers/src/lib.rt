// The uses of one cell, in the ring: a reader counts the writes of its cycle that end after its start, a write those that end after its end.
#![tactic(auto)]

ghost use Rattle.std.specs.Prelude.{◌≡◌, ℕ, ◌<◌, ◌≤◌, length, replicate};
ghost use Rattle.std.specs.Fn.{FnReturnsAt};
ghost use Rattle.rules.specs.Table.{Table, Accepted};
ghost use Rattle.theory.specs.Walks.{IsReach};
ghost use Rattle.lives.specs.Left.{Low};
ghost use Rattle.columns.specs.declared.Dated.{Dated};
ghost use Rattle.columns.specs.Columns.{dates, Columns, Short};
ghost use Rattle.counting.specs.Counting.{ReadersOf, WritersOf};
ghost use Rattle.offers.specs.Offers.{Offered, OfferedMode, UsesOf};

use columns::Dated;
use sets::Members;

// These operations, in mode m, each with the date that `since` says: the end waits for the row that counts the writers that end after the date.
fn offer_users<F: Fn(&Dated) -> u32>(
    ring: &mut [u32; 1056],
    cols: &[Dated; 32],
    writers: u32,
    users: u32,
    since: F,
    m: usize,
)
    requires callable { F.IsAlwaysCallable since }
    requires early { (j date : ℕ) → j < 32 → FnReturnsAt F.Fn since (dates cols.now j) date → date ≤ 1000 }
    requires sized { Short cols.now × (m < 32) × (length ring.old ≡ 1056) }
    ensures { (date : Dated → ℕ) → ((d : Dated) (r : ℕ) → FnReturnsAt F.Fn since d r → r ≡ date d) → Offered cols.now writers users (λ j. date (dates cols.now j)) m ring.old ring.new }
{
    let all = counting::ended(cols, writers, 1000);
    for u in Members(users) {
        let j = u as usize;
        let ahead = all - counting::ended(cols, writers, since(&cols[j]));
        ring::offer(ring, 32 * ahead as usize + m, columns::end(cols, j));
    }
}

// All uses in mode m: those that read the cell from their start on, and those that have written it at their end.
fn offer_mode(ring: &mut [u32; 1056], cols: &[Dated; 32], writers: u32, readers: u32, m: u32)
    requires { Short cols.now × (m < 32) × (length ring.old ≡ 1056) }
    ensures { OfferedMode cols.now writers readers m ring.old ring.new }
{
    let w = counting::in_mode(cols, writers, m);
    let r = counting::in_mode(cols, readers, m);
    offer_users(ring, cols, w, r, |o| o.start, m as usize);
    offer_users(ring, cols, w, w, |o| o.end, m as usize);
}

// All uses in the modes that a run can reach, in a ring where nothing waits.
pub fn fill(ring: &mut [u32; 1056], cols: &[Dated; 32], writers: u32, readers: u32, reached: u32)
    requires { Short cols.now × (ring.old ≡ replicate 1056 0) }
    ensures { (length ring.new ≡ 1056) × Low ring.new 1056 × ((T : Table) (c : ℕ) → Accepted T → Columns T cols.now → WritersOf T c writers → ReadersOf T c readers → IsReach T reached → UsesOf T c ring.new) }
{
    for m in Members(reached) {
        offer_mode(ring, cols, writers, readers, m);
    }
}
