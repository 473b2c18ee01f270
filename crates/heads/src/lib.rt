// What stands before the operations in a table's bytes: fields 01 to 03, judged and read.
#![tactic(auto)]

ghost use Rattle.std.specs.Prelude.{◌≡◌, ◌+◌, ◌≤◌, length};
ghost use Rattle.rules.specs.Verdicts.{accepted};
ghost use Rattle.rules.specs.Bytes.{words};
ghost use Rattle.rules.specs.Judge.{sets_wrong, head_of, ops_place, head_test};
ghost use Rattle.fields.specs.Verdicts.{answered};
ghost use Rattle.fields.specs.Fields.{IsPlace};
ghost use Rattle.table.specs.Tables.{table_in, padded};
ghost use Rattle.heads.specs.Heads.{len_test, counts_test, modes_test};

use fields::Refusal;
use table::Table;

// A first field that holds a length from 1 to 1000: field 01 of a table, and field 11 of a reply.
pub fn len_test(s: &[u8], tag: u8) -> Result<(), Refusal>
    ensures { answered result ≡ len_test tag s.now }
{
    reader::field_at(s, 0, tag, 2)?;
    let wrong = ranges::len_wrong(fields::be16(s, 3) as u64);
    fields::range_test(wrong, 0)
}

// Field 02.
#[tactic(auto, using(fields::specs::FieldLaws::field_passed))]
fn counts_test(s: &[u8]) -> Result<(), Refusal>
    ensures { answered result ≡ counts_test s.now }
{
    reader::field_at(s, 5, 2, 3)?;
    let boards = fields::byte(s, 8) as u64;
    let cells = fields::byte(s, 9) as u64;
    let modes = fields::byte(s, 10) as u64;
    fields::range_test(ranges::counts_wrong(boards, cells, modes), 5)
}

// Which set is wrong first of the first modes and the followers of each mode, one word after the other, if one is: where it begins in the field.
fn sets_wrong(s: &[u8], modes: u32) -> Option<usize>
    requires { (modes ≤ 32) × (ops_place modes ≤ length s.now) }
    ensures { IsPlace result (sets_wrong modes (words s.now 14 (modes + 1))) }
{
    for m in 0..=modes as usize {
        let word = fields::be32(s, 14 + 4 * m);
        if !sets::is_set_of(modes, word as u64) {
            return Some(3 + 4 * m);
        }
    }
    None
}

// Field 03, for as many modes.
fn modes_test(s: &[u8], modes: u32) -> Result<(), Refusal>
    requires { modes ≤ 32 }
    ensures { answered result ≡ modes_test modes s.now }
{
    reader::field_at(s, 11, 3, 4 + 4 * (modes as usize))?;
    fields::range_test(sets_wrong(s, modes), 11)
}

// Fields 01 to 03, and that something comes behind them.
#[tactic(auto, using(crate::specs::HeadLaws::counts_fit))]
pub fn head_test(s: &[u8]) -> Result<(), Refusal>
    ensures { answered result ≡ head_test s.now }
{
    len_test(s, 1)?;
    counts_test(s)?;
    let modes = fields::byte(s, 10);
    modes_test(s, modes)?;
    let place = table::ops_place(modes);
    if s.len() <= place {
        return Err(Refusal::Order(place));
    }
    Ok(())
}

// The followers of each mode; what does not count is zero.
fn read_words(s: &[u8], modes: u32) -> [u32; 32]
    requires { (modes ≤ 32) × (ops_place modes ≤ length s.now) }
    ensures { result ≡ padded 32 0 (words s.now 18 modes) }
{
    let mut out = [0u32; 32];
    for m in 0..modes as usize {
        out[m] = fields::be32(s, 18 + 4 * m);
    }
    out
}

// What stands before the operations, once it is judged.
#[tactic(auto, using(crate::specs::HeadLaws::head_fits, crate::specs::HeadLaws::head_long))]
pub fn read_head(s: &[u8]) -> Table
    requires { head_test s.now ≡ accepted tt }
    ensures { result ≡ table_in (head_of s.now) }
{
    let len = fields::be16(s, 3);
    let boards = fields::byte(s, 8);
    let cells = fields::byte(s, 9);
    let modes = fields::byte(s, 10);
    let first = fields::be32(s, 14);
    let follow = read_words(s, modes);
    Table {
        len,
        boards,
        cells,
        modes,
        first,
        follow,
        ..table::empty()
    }
}
