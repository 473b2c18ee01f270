// Replies: a table's period and rows, written as bytes.
#![tactic(auto)]

ghost use Rattle.std.specs.Prelude.{◌≡◌, ◌++◌, ◌+◌, ◌*◌, ◌<◌, ◌≤◌, length, drop};
ghost use Rattle.rules.specs.Rows.{reply_of};
ghost use Rattle.rules.specs.Bytes.{joined, row_bytes, reply_bytes};
ghost use Rattle.table.specs.Tables.{table_of, Good};
ghost use Rattle.puts.specs.Puts.{stored};
ghost use Rattle.rows.specs.Rows.{row_of};
ghost use Rattle.replies.specs.Replies.{row_in};

use rows::{Row, Ticks};
use table::Table;

// A row's field, 7 bytes.
fn put_row(out: &mut [u8], at: usize, r: Row)
    requires { at + 7 ≤ length out.old }
    ensures { out.new ≡ stored out.old at (row_bytes (row_of r)) }
{
    puts::put_header(out, at, 18, 4);
    puts::put16(out, at + 3, r.start.0);
    puts::put16(out, at + 5, r.fst.0);
}

// The row of an operation of the table.
pub fn row_of(t: Table, i: usize, q: Ticks) -> Row
    requires { Good t × (i < t.count) × (1 ≤ q.0) × (q.0 ≤ t.len) }
    ensures { row_of result ≡ row_in (table_of t) q.0 i }
{
    rows::fold(q, Ticks(t.ops[i].start))
}

// The rows of the table at the period q, behind the field of the period.
fn put_rows(out: &mut [u8], t: Table, q: Ticks)
    requires { Good t × (1 ≤ q.0) × (q.0 ≤ t.len) × (5 + 7 * t.count ≤ length out.old) }
    ensures { out.new ≡ stored out.old 5 (joined row_bytes (reply_of (table_of t) q.0).rows) }
{
    for i in 0..t.count {
        let r = row_of(t, i, q);
        put_row(out, 5 + 7 * i, r);
    }
}

// A table folded at the period q, from the front of the buffer; the rest is kept.
pub fn put_reply(out: &mut [u8], t: Table, q: Ticks)
    requires { Good t × (1 ≤ q.0) × (q.0 ≤ t.len) × (5 + 7 * t.count ≤ length out.old) }
    ensures { out.new ≡ reply_bytes (reply_of (table_of t) q.0) ++ drop (5 + 7 * t.count) out.old }
{
    puts::put_header(out, 0, 17, 2);
    puts::put16(out, 3, q.0);
    put_rows(out, t, q);
}
