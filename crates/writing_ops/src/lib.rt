// The operations' fields, written into a lent buffer, each in its own form: with its hold, or without one.
#![tactic(auto)]

ghost use Rattle.std.specs.Prelude.{◌≡◌, ◌+◌, ◌≤◌, length, take};
ghost use Rattle.rules.specs.Bytes.{joined, op_size, op_form};
ghost use Rattle.rules.specs.Judge.{ops_place, ops_end};
ghost use Rattle.theory.specs.Holds.{op_width};
ghost use Rattle.table.specs.Tables.{op_of, table_of};
ghost use Rattle.puts.specs.Puts.{stored};
ghost use Rattle.writing_ops.specs.WritingOps.{bytes_of_op, used_bytes};

use table::{Op, Table};

// The sets of one operation, which are the last 14 bytes of either form.
fn put_used(out: &mut [u8], at: usize, o: Op)
    requires { at + 14 ≤ length out.old }
    ensures { out.new ≡ stored out.old at (used_bytes o) }
{
    puts::put16(out, at, o.boards);
    puts::put32(out, at + 2, o.reads);
    puts::put32(out, at + 6, o.writes);
    puts::put32(out, at + 10, o.modes);
}

// The bytes of one operation in a form: with its hold, or without one. Its sets stand behind the duration, or behind the hold.
fn put_form(out: &mut [u8], at: usize, o: Op, held: bool)
    requires { at + 3 + op_size held ≤ length out.old }
    ensures { out.new ≡ stored out.old at (op_form held (op_of o)) }
{
    puts::put_header(out, at, 4, widths::size(held) as u32);
    puts::put16(out, at + 3, o.start);
    puts::put16(out, at + 5, o.dur);
    if held {
        puts::put16(out, at + 7, o.hold);
        put_used(out, at + 9, o);
        return;
    }
    put_used(out, at + 7, o);
}

// The bytes of one operation, in the form that its hold asks for.
fn put_op(out: &mut [u8], at: usize, o: Op)
    requires { at + op_width (op_of o) ≤ length out.old }
    ensures { out.new ≡ stored out.old at (bytes_of_op o) }
{
    put_form(out, at, o, o.hold != 0);
}

// The operations, behind the fields before them; and where they end.
pub fn put_ops(out: &mut [u8], t: Table) -> usize
    requires { (t.modes ≤ 32) × (t.count ≤ 32) × (ops_end (table_of t) ≤ length out.old) }
    ensures { (out.new ≡ stored out.old (ops_place t.modes) (joined bytes_of_op (take t.count t.ops))) × (result ≡ ops_end (table_of t)) }
{
    let mut at = table::ops_place(t.modes);
    // By index: `&t.ops[..t.count]` lends a field of a table that is had by value, and the frame grows by what the table takes.
    for i in 0..t.count {
        let o = t.ops[i];
        put_op(out, at, o);
        at += widths::op_width(o);
    }
    at
}
