// The fields before the operations, written into a lent buffer.
#![tactic(auto)]

ghost use Rattle.std.specs.Prelude.{◌≡◌, ◌≤◌, length, take};
ghost use Rattle.rules.specs.Bytes.{be32, joined, head_bytes};
ghost use Rattle.rules.specs.Judge.{ops_place};
ghost use Rattle.table.specs.Tables.{table_of};
ghost use Rattle.puts.specs.Puts.{stored};
ghost use Rattle.writing_head.specs.WritingHead.{counts_bytes, modes_bytes, Writable};

use table::Table;

// The table length, and the counts.
fn put_counts(out: &mut [u8], t: Table)
    requires { Writable t × (11 ≤ length out.old) }
    ensures { out.new ≡ stored out.old 0 (counts_bytes t) }
{
    puts::put_header(out, 0, 1, 2);
    puts::put16(out, 3, t.len);
    puts::put_header(out, 5, 2, 3);
    puts::put8(out, 8, t.boards);
    puts::put8(out, 9, t.cells);
    puts::put8(out, 10, t.modes);
}

// The followers of each mode, behind the first modes.
fn put_words(out: &mut [u8], t: Table)
    requires { (t.modes ≤ 32) × (ops_place t.modes ≤ length out.old) }
    ensures { out.new ≡ stored out.old 18 (joined be32 (take t.modes t.follow)) }
{
    // By index: `&t.follow[..]` lends a field of a table that is had by value, and the frame grows by what the table takes.
    for i in 0..t.modes as usize {
        puts::put32(out, 18 + 4 * i, t.follow[i]);
    }
}

// The first modes, and the followers of each mode.
fn put_modes(out: &mut [u8], t: Table)
    requires { (t.modes ≤ 32) × (ops_place t.modes ≤ length out.old) }
    ensures { out.new ≡ stored out.old 11 (modes_bytes t) }
{
    puts::put_header(out, 11, 3, 4 + 4 * t.modes);
    puts::put32(out, 14, t.first);
    put_words(out, t);
}

// All the fields before the operations.
pub fn put_head(out: &mut [u8], t: Table)
    requires { Writable t × (ops_place t.modes ≤ length out.old) }
    ensures { out.new ≡ stored out.old 0 (head_bytes (table_of t)) }
{
    put_counts(out, t);
    put_modes(out, t);
}
