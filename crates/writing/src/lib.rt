// A table's bytes, written into a lent buffer.
#![tactic(auto)]

ghost use Rattle.std.specs.Prelude.{◌≡◌, ◌≤◌, ◌++◌, length, drop};
ghost use Rattle.rules.specs.Bytes.{table_bytes};
ghost use Rattle.rules.specs.Answers.{IsWrite, put};
ghost use Rattle.fields.specs.Verdicts.{answered, leaving};
ghost use Rattle.table.specs.Tables.{table_of, who_of};
ghost use Rattle.handed.specs.Handed.{numbers_of};
ghost use Rattle.writing_head.specs.WritingHead.{Writable};
ghost use Rattle.writing_decider.specs.WritingDecider.{Byte};
ghost use Rattle.writing.specs.WritingLaws.{whole_size};

use fields::Refusal;
use handed::Numbers;
use table::Table;

// A table's bytes at the front of a buffer; the rest of it is kept.
fn put_table(out: &mut [u8], t: Table)
    requires { Writable t × (t.count ≤ 32) × Byte (who_of t.decider) × (whole_size t ≤ length out.old) }
    ensures { out.new ≡ table_bytes (table_of t) ++ drop (length (table_bytes (table_of t))) out.old }
{
    writing_head::put_head(out, t);
    let at = writing_ops::put_ops(out, t);
    writing_decider::put_decider(out, at, t.decider);
}

// A table's bytes at the front of a buffer, or a refusal that needs more room and keeps every byte.
fn write_table(out: &mut [u8], t: Table) -> Result<usize, Refusal>
    requires { Writable t × (t.count ≤ 32) × Byte (who_of t.decider) }
    ensures { leaving (answered result) out.new ≡ put (table_bytes (table_of t)) out.old }
{
    let end = widths::ops_end(t.modes, t.ops, t.count);
    let size = writing_decider::with_decider(end, t.decider);
    if out.len() < size {
        return Err(Refusal::Room(size));
    }
    put_table(out, t);
    Ok(size)
}

// A table from its numbers: judged, and then written. On a refusal no byte changes.
pub fn write(n: Numbers, out: &mut [u8]) -> Result<usize, Refusal>
    ensures { IsWrite (numbers_of n.entry) out.old (leaving (answered result) out.new) }
{
    let t = handed::judge(n)?;
    write_table(out, t)
}
