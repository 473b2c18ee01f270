// A table's operations by their dates, made once for a table and lent from then on: the dates at which an operation ends and lets go of its boards in
// place of duration and hold, 32 entries.
#![tactic(auto)]

ghost use Rattle.std.specs.Prelude.{◌≡◌, map, ◌<◌, ◌≤◌, length, take};
ghost use Rattle.rules.specs.Table.{Table, end_of, held_to};
ghost use Rattle.table.specs.Tables.{op_of};
ghost use Rattle.columns.specs.Columns.{op_by, op_dated, dated, Short, HeldShort, Columns};

use table::Op;

// An operation by its dates: where it starts, where it ends, and where it lets go of its boards.
#[derive(Clone, Copy)]
pub struct Dated {
    pub start: u32,
    pub end: u32,
    pub held: u32,
    pub boards: u32,
    pub reads: u32,
    pub writes: u32,
    pub modes: u32,
}

// ---- one number of an operation

pub fn start(cols: &[Dated; 32], i: usize) -> u32
    requires { i < 32 }
    ensures { result ≡ (op_by cols.now i).start }
{
    cols[i].start
}

pub fn boards(cols: &[Dated; 32], i: usize) -> u32
    requires { i < 32 }
    ensures { result ≡ (op_by cols.now i).boards }
{
    cols[i].boards
}

pub fn modes(cols: &[Dated; 32], i: usize) -> u32
    requires { i < 32 }
    ensures { result ≡ (op_by cols.now i).modes }
{
    cols[i].modes
}

// The tick at which its writes come.
pub fn end(cols: &[Dated; 32], i: usize) -> u32
    requires { (i < 32) × Short cols.now }
    ensures { result ≡ end_of (op_by cols.now i) }
{
    cols[i].end
}

// The tick from which it no longer holds its boards.
pub fn held(cols: &[Dated; 32], i: usize) -> u32
    requires { (i < 32) × Short cols.now }
    ensures { result ≡ held_to (op_by cols.now i) }
{
    cols[i].held
}

// ---- the columns of a table

impl Dated {
    // The operation with its dates.
    fn of(o: Op) -> Dated
        requires { held_to (op_of o) ≤ 1000 }
        ensures { result ≡ dated (op_of o) }
    {
        Dated {
            start: o.start,
            end: o.start + o.dur,
            held: o.start + o.dur + o.hold,
            boards: o.boards,
            reads: o.reads,
            writes: o.writes,
            modes: o.modes,
        }
    }
}

// All of them.
// Not put into its callers: its own copy is off the stack again before the engine runs.
#[inline(never)]
pub fn columns(ops: [Op; 32], count: usize) -> [Dated; 32]
    requires { (length ops ≡ 32) × (count ≤ 32) × HeldShort ops count }
    ensures { (T : Table) → T.ops ≡ map op_of (take count ops) → Columns T result }
{
    let none = Dated {
        start: 0,
        end: 0,
        held: 0,
        boards: 0,
        reads: 0,
        writes: 0,
        modes: 0,
    };
    let mut cols = [none; 32];
    for k in 0..count {
        cols[k] = Dated::of(ops[k]);
    }
    cols
}
