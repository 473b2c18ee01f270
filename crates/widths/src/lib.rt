// How many bytes an operation's field has, by its form: with a hold or without one; and where the operations end in a table's bytes.
#![tactic(auto)]

ghost use Rattle.std.specs.Prelude.{◌≡◌, map, ◌+◌, ◌≤◌, length, take};
ghost use Rattle.rules.specs.Bytes.{op_size};
ghost use Rattle.rules.specs.Judge.{ops_place, ops_size};
ghost use Rattle.theory.specs.Holds.{op_width};
ghost use Rattle.table.specs.Tables.{op_of};

use table::Op;

// The length of the value of an operation's field.
pub fn size(held: bool) -> usize
    ensures { (result ≡ op_size held) × (result ≤ 20) }
{
    if held {
        return 20;
    }
    18
}

// How many bytes the field of an operation has: one with a hold has the longer form.
pub fn op_width(o: Op) -> usize
    ensures { (result ≡ op_width (op_of o)) × (result ≤ 23) }
{
    3 + size(o.hold != 0)
}

// Where the operations end: each one's field stands behind the one before.
pub fn ops_end(modes: u32, ops: [Op; 32], count: usize) -> usize
    requires { (count ≤ 32) × (length ops ≡ 32) }
    ensures { result ≡ ops_place modes + ops_size (map op_of (take count ops)) }
{
    let mut at = table::ops_place(modes);
    for o in &ops[..count] {
        at += op_width(*o);
    }
    at
}
