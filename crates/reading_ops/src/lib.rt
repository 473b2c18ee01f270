// One operation's field in a table's bytes: its form, which its length tells, its numbers, and whether they are in range.
#![tactic(auto)]

ghost use Rattle.std.specs.Prelude.{◌≡◌, ◌+◌, ◌<◌, ◌≤◌, length, is_some, unwrap_or};
ghost use Rattle.rules.specs.Bytes.{op_size, held_at, read_op};
ghost use Rattle.ranges.specs.Ranges.{wide_of, sized};
ghost use Rattle.reading_ops.specs.ReadingOps.{hold_in, op_told, op_verdict};

use fields::Refusal;
use ranges::{Counts, Wide};
use table::Op;

// Whether the field at a place has the length of one with a hold; where its header is cut it has none.
pub fn held_at(s: &[u8], at: usize) -> bool
    requires { at ≤ length s.now }
    ensures { result ≡ held_at s.now at }
{
    if s.len() - at < 3 {
        return false;
    }
    fields::be16(s, at + 1) == 20
}

// The hold of the operation's field at a place, in the form that has one.
fn hold_at(s: &[u8], at: usize, held: bool) -> Option<u64>
    requires { at + 21 ≤ length s.now }
    ensures { (is_some result ≡ held) × (unwrap_or result 0 ≡ hold_in held s.now at) }
{
    if held {
        Some(fields::be16(s, at + 7) as u64)
    } else {
        None
    }
}

// The numbers of the operation's field at a place; its sets stand behind the duration, or behind the hold.
fn read_op(s: &[u8], at: usize, held: bool) -> Wide
    requires { at + 3 + op_size held ≤ length s.now }
    ensures { (wide_of result ≡ read_op held s.now at) × (is_some result.hold ≡ held) }
{
    let sets = at + ranges::used_place(held);
    Wide {
        start: fields::be16(s, at + 3) as u64,
        dur: fields::be16(s, at + 5) as u64,
        hold: hold_at(s, at, held),
        boards: fields::be16(s, sets) as u64,
        reads: fields::be32(s, sets + 2) as u64,
        writes: fields::be32(s, sets + 6) as u64,
        modes: fields::be32(s, sets + 10) as u64,
    }
}

// The field of this form at a place inside the input, when `left` more operations may come, in a table of this length and these counts.
pub fn next_op(s: &[u8], at: usize, held: bool, left: usize, counts: Counts) -> Result<Op, Refusal>
    requires { (at < length s.now) × (held ≡ held_at s.now at) }
    ensures { op_told result ≡ op_verdict (sized counts) s.now left at }
{
    reader::repeated_at(s, at, left, 4, widths::size(held))?;
    let w = read_op(s, at, held);
    let wrong = ranges::wide_wrong(counts, w);
    fields::range_test(wrong, at)?;
    Ok(ranges::narrow(counts, w))
}
