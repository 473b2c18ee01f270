// The ranges of document 01, tested before a number is held. Each test answers which number is wrong first, if one is: where it begins in its field,
// behind the tag and the length.
#![tactic(auto)]

ghost use Rattle.std.specs.Prelude.{◌≡◌, ◌<◌, ◌≤◌, is_some};
ghost use Rattle.rules.specs.Judge.{len_wrong, counts_wrong, op_wrong};
ghost use Rattle.fields.specs.Fields.{IsPlace};
ghost use Rattle.table.specs.Tables.{op_of};
ghost use Rattle.ranges.specs.Ranges.{wide_of, sized, dates_of, used_at, sets_of};

mod in_range;

pub use in_range::Counts;
use table::Op;

// An operation's numbers before they are judged, with a hold among them or without one.
#[derive(Clone, Copy)]
pub struct Wide {
    pub start: u64,
    pub dur: u64,
    pub hold: Option<u64>,
    pub boards: u64,
    pub reads: u64,
    pub writes: u64,
    pub modes: u64,
}

// No operation lasts less, and no hold that is there settles in less.
const LEAST_DUR: u64 = 1;

const LEAST_HOLD: u64 = 1;

pub fn len_wrong(p: u64) -> Option<usize>
    ensures { IsPlace result (len_wrong p) }
{
    if p < 1 {
        return Some(3);
    }
    if 1000 < p {
        return Some(3);
    }
    None
}

pub fn counts_wrong(boards: u64, cells: u64, modes: u64) -> Option<usize>
    ensures { IsPlace result (counts_wrong boards cells modes) }
{
    if boards < 1 {
        return Some(3);
    }
    if 16 < boards {
        return Some(3);
    }
    if 32 < cells {
        return Some(4);
    }
    if modes < 1 {
        return Some(5);
    }
    if 32 < modes {
        return Some(5);
    }
    None
}

// An operation's dates, in a table of this length: the duration is blamed before the hold.
fn dates_wrong(len: u32, w: Wide) -> Option<usize>
    ensures { IsPlace result (dates_of len (is_some w.hold) (wide_of w)) }
{
    let p = len as u64;
    if 65535 < w.start {
        return Some(3);
    }
    if w.dur < LEAST_DUR {
        return Some(5);
    }
    if p < w.dur {
        return Some(5);
    }
    if p - w.dur < w.start {
        return Some(5);
    }
    let hold = w.hold?;
    if hold < LEAST_HOLD {
        return Some(7);
    }
    if p - w.dur - w.start < hold {
        return Some(7);
    }
    None
}

// Its sets, in a table of these counts; the first of them begins at a place in the field.
fn used_wrong(counts: Counts, w: Wide, place: usize) -> Option<usize>
    requires { (0 < place) × (place ≤ 9) }
    ensures { IsPlace result (sets_of (sized counts) place (wide_of w)) }
{
    if !sets::is_set_of(counts.boards, w.boards) {
        return Some(place);
    }
    if !sets::is_within(counts.cells, w.reads) {
        return Some(place + 2);
    }
    if !sets::is_within(counts.cells, w.writes) {
        return Some(place + 6);
    }
    if !sets::is_set_of(counts.modes, w.modes) {
        return Some(place + 10);
    }
    None
}

// Where its sets begin: behind the duration, or behind the hold.
pub fn used_place(held: bool) -> usize
    ensures { (result ≡ used_at held) × (result ≤ 9) × (0 < result) }
{
    if held { 9 } else { 7 }
}

// All its numbers, in a table of this length and these counts.
pub fn wide_wrong(counts: Counts, w: Wide) -> Option<usize>
    ensures { IsPlace result (op_wrong (sized counts) (is_some w.hold) (wide_of w)) }
{
    match dates_wrong(counts.len, w) {
        Some(place) => Some(place),
        None => used_wrong(counts, w, used_place(w.hold.is_some())),
    }
}

// The operation of numbers that are in range.
pub fn narrow(counts: Counts, w: Wide) -> Op
    requires { op_wrong (sized counts) (is_some w.hold) (wide_of w) ≡ 0 }
    ensures { op_of result ≡ wide_of w }
{
    Op {
        start: w.start as u32,
        dur: w.dur as u32,
        hold: w.hold.unwrap_or(0) as u32,
        boards: w.boards as u32,
        reads: w.reads as u32,
        writes: w.writes as u32,
        modes: w.modes as u32,
    }
}
