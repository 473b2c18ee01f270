// Places: a table's bytes in, how many places each of its cells needs out.
#![tactic(auto)]

ghost use Rattle.std.specs.Prelude.{◌≡◌, ◌*◌, ◌≤◌, length, take};
ghost use Rattle.rules.specs.Bytes.{places_bytes};
ghost use Rattle.rules.specs.Answers.{IsStored};
ghost use Rattle.fields.specs.Verdicts.{answered, leaving};
ghost use Rattle.table.specs.Tables.{table_of, Good};
ghost use Rattle.puts.specs.Puts.{stored};
ghost use Rattle.stores.specs.Stores.{Stores};

use fields::Refusal;
use table::Table;

// The first n numbers, 2 bytes each, from the front of the buffer.
fn put_places(out: &mut [u8], rs: &[u32; 32], n: usize)
    requires { (n ≤ 32) × (length rs.now ≡ 32) × (2 * n ≤ length out.old) }
    ensures { out.new ≡ stored out.old 0 (places_bytes (take n rs.now)) }
{
    for (c, r) in rs[..n].iter().enumerate() {
        puts::put16(out, 2 * c, *r);
    }
}

// The places of an accepted table's cells, or ROOM.
fn store_table(t: Table, out: &mut [u8]) -> Result<usize, Refusal>
    requires { Good t }
    ensures { Stores (table_of t) out.old (leaving (answered result) out.new) }
{
    let cells = t.cells as usize;
    let needed = 2 * cells;
    if out.len() < needed {
        return Err(Refusal::Room(needed));
    }
    let q = period::smallest(t);
    let rs = places::each(t, q);
    put_places(out, &rs, cells);
    Ok(needed)
}

// The places of a table's cells at its period, 2 bytes each. On a refusal every byte of the buffer stays.
pub fn places(s: &[u8], out: &mut [u8]) -> Result<usize, Refusal>
    ensures { IsStored s.now out.old (leaving (answered result) out.new) }
{
    let t = reading::read(s)?;
    store_table(t, out)
}
