// A table as the code hands it around, by value, its dates and its places.
#![tactic(auto)]

ghost use Rattle.std.specs.Prelude.{◌≡◌};
ghost use Rattle.rules.specs.Table.{end_of, held_to};
ghost use Rattle.rules.specs.Judge.{ops_place};
ghost use Rattle.table.specs.Tables.{no_table, op_of};

#[derive(Clone, Copy)]
pub struct Op {
    pub start: u32,
    pub dur: u32,
    pub hold: u32,
    pub boards: u32,
    pub reads: u32,
    pub writes: u32,
    pub modes: u32,
}

// The first `modes` words of `follow` and the first `count` operations count; the others are zero. The decider is the operation that decides, by
// its number.
#[derive(Clone, Copy)]
pub struct Table {
    pub len: u32,
    pub boards: u32,
    pub cells: u32,
    pub modes: u32,
    pub first: u32,
    pub follow: [u32; 32],
    pub ops: [Op; 32],
    pub count: usize,
    pub decider: Option<usize>,
}

// The table with nothing in it.
pub fn empty() -> Table
    ensures { result ≡ no_table }
{
    let none = Op {
        start: 0,
        dur: 0,
        hold: 0,
        boards: 0,
        reads: 0,
        writes: 0,
        modes: 0,
    };
    let ops = [none; 32];
    let follow = [0u32; 32];
    Table {
        len: 0,
        boards: 0,
        cells: 0,
        modes: 0,
        first: 0,
        follow,
        ops,
        count: 0,
        decider: None,
    }
}

// ---- dates and places

// The tick at which an operation's writes come, and from which it no longer uses its cells.
pub fn end_of(o: Op) -> u64
    ensures { result ≡ end_of (op_of o) }
{
    o.start as u64 + o.dur as u64
}

// The tick from which an operation no longer holds its boards.
pub fn held_to(o: Op) -> u64
    ensures { result ≡ held_to (op_of o) }
{
    let settled = o.dur as u64 + o.hold as u64;
    o.start as u64 + settled
}

// Where the operations begin in a table's bytes.
pub fn ops_place(modes: u32) -> usize
    ensures { result ≡ ops_place modes }
{
    18 + 4 * (modes as usize)
}
