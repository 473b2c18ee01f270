// The operations of a table handed over as numbers, six for each and beside them a mark and a hold, judged one after the other.
#![tactic(auto)]

ghost use Rattle.std.specs.Prelude.{◌≡◌, ◌+◌, ◌*◌, ◌<◌, ◌≤◌, length, is_some};
ghost use Rattle.table.specs.Tables.{JudgedAs, table_of};
ghost use Rattle.ranges.specs.Ranges.{wide_of, sized};
ghost use Rattle.handed_ops.specs.HandedOps.{op_there, mark_there, none_behind, Told, handed_ops, SmallCounts, Bare};

use fields::Refusal;
use ranges::{Counts, Wide};
use table::{Op, Table};

// Whether no number is left behind k operations, neither of the six nor a mark or a hold.
pub fn none_left(ops: &[u64], holds: &[u64], k: usize) -> bool
    requires { k ≤ 32 }
    ensures { result ≡ none_behind ops.now holds.now k }
{
    ops.len() <= 6 * k && holds.len() <= 2 * k
}

// The numbers of the operation behind k others; its hold is among them where it is marked.
fn wide_at(ops: &[u64], holds: &[u64], k: usize) -> Wide
    requires { (k ≤ 32) × (6 * k + 6 ≤ length ops.now) × (2 * k + 2 ≤ length holds.now) }
    ensures { (wide_of result ≡ op_there ops.now holds.now k) × (is_some result.hold ≡ mark_there holds.now k) }
{
    let at = 6 * k;
    Wide {
        start: ops[at],
        dur: ops[at + 1],
        hold: (holds[2 * k] != 0).then_some(holds[2 * k + 1]),
        boards: ops[at + 2],
        reads: ops[at + 3],
        writes: ops[at + 4],
        modes: ops[at + 5],
    }
}

// The operation behind `count` others, which would be written at `place`, in a table of this length and these counts, when it passes its tests.
// (`reading_ops::next_op` asks other tests, of bytes.)
fn next_op(
    counts: Counts,
    ops: &[u64],
    holds: &[u64],
    count: usize,
    place: usize,
) -> Result<Op, Refusal>
    requires { (count ≤ 32) × (place < 1000) }
    ensures { Told (sized counts) ops.now holds.now count place result }
{
    if 32 <= count {
        return Err(Refusal::Many(place));
    }
    if ops.len() < 6 * count + 6 {
        return Err(Refusal::Short(place));
    }
    if holds.len() < 2 * count + 2 {
        return Err(Refusal::Short(place));
    }
    let w = wide_at(ops, holds, count);
    fields::range_test(ranges::wide_wrong(counts, w), place)?;
    Ok(ranges::narrow(counts, w))
}

// All the operations, judged one after the other and put behind what stands before them. Each is stored where it belongs: the table is not copied for it.
// It ends where neither list has a number left, and a field has its own width: nothing here is stepped over evenly.
pub fn take_ops(head: Table, ops: &[u64], holds: &[u64]) -> Result<Table, Refusal>
    requires { Bare head × SmallCounts head.boards head.cells head.modes }
    ensures { JudgedAs (handed_ops (table_of head) ops.now holds.now) result }
{
    let counts = Counts {
        len: head.len,
        boards: head.boards,
        cells: head.cells,
        modes: head.modes,
    };
    let mut t = head;
    let mut place = table::ops_place(head.modes);
    while !none_left(ops, holds, t.count) {
        let o = next_op(counts, ops, holds, t.count, place)?;
        t.ops[t.count] = o;
        t.count += 1;
        place += widths::op_width(o);
    }
    Ok(t)
}
