// A ring of 33 rows with 32 entries each: what waits for the rows to come. A row that is done makes room for the one 33 rows later.
#![tactic(auto)]

ghost use Rattle.std.specs.Prelude.{◌≡◌, ◌%◌, ◌<◌, ◌≤◌, max, length, get_or, set};
ghost use Rattle.lives.specs.Left.{Few};
ghost use Rattle.ring.specs.Ring.{carried_by, Carried};

// An entry, raised to a number.
pub fn offer(ring: &mut [u32; 1056], at: usize, x: u32)
    requires { (at < 1056) × (length ring.old ≡ 1056) }
    ensures { ring.new ≡ set ring.old at (max (get_or ring.old at 0) x) }
{
    ring[at] = ring[at].max(x);
}

// The row that stands so far round.
pub fn wrapped(n: usize) -> usize
    requires { n < 66 }
    ensures { result ≡ n % 33 }
{
    if n < 33 {
        return n;
    }
    n - 33
}

// In the column of mode m: x waits for the row k behind `slot`, and the row `slot` is done.
fn carry_mode(ring: &mut [u32; 1056], m: usize, slot: usize, k: usize, x: u32)
    requires { (m < 32) × (slot < 33) × (k ≤ 32) × (length ring.old ≡ 1056) }
    ensures { ring.new ≡ carried_by ring.old m slot k x }
{
    let to = wrapped(slot + k);
    offer(ring, 32 * to + m, x);
    ring[32 * slot + m] = 0;
}

// What the row `slot` leaves waits, in the column of each mode, for the row that comes as many rows later as the mode counts; the row is done.
pub fn carry(ring: &mut [u32; 1056], row: &[u32; 32], counts: &[u32; 32], slot: usize)
    requires { (slot < 33) × Few counts.now × (length ring.old ≡ 1056) }
    ensures { Carried row.now counts.now slot 32 ring.old ring.new }
{
    for (m, left) in row.iter().enumerate() {
        carry_mode(ring, m, slot, counts[m] as usize, *left);
    }
}
