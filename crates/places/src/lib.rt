// The places of each cell: the search goes over the number of writes since a use of a value, row by row, until no row reaches the next number.
#![tactic(auto)]

ghost use Rattle.std.specs.Prelude.{◌≡◌, ℕ, ◌+◌, ◌<◌, ◌≤◌, length, get_or, take};
ghost use Rattle.rules.specs.Table as rules;
ghost use Rattle.rules.specs.Runs.{ValuesRightAt, spaced, IsPeriod};
ghost use Rattle.rules.specs.Places.{IsPlaces, EachPlaces};
ghost use Rattle.lives.specs.Left.{Farther, Few};
ghost use Rattle.table.specs.Tables.{table_of, Good};
ghost use Rattle.columns.specs.Columns.{Short};
ghost use Rattle.ranks.specs.Ranks.{CountsOf, RanksOf};
ghost use Rattle.places.specs.Search.{IdleIn, Stops, CellOf};

use columns::Dated;
use table::Table;

// The modes in which nothing is written.
fn idle_of(counts: &[u32; 32]) -> u32
    ensures { IdleIn counts.now 32 result }
{
    let mut idle: u32 = 0;
    for (m, count) in counts.iter().enumerate() {
        if *count == 0 {
            idle = sets::with(idle, m as u32);
        }
    }
    idle
}

// How far the rows reach, moved on by mode m: x ticks are left there with s writes, and k writes of the mode start in the order of their entries.
fn reach_mode(starts: &[u32; 1024], m: usize, k: u32, x: u32, s: u32, far: u32) -> u32
    requires { (m < 32) × (k ≤ 32) × (s ≤ far) × (far ≤ 40000) }
    ensures { Stops starts.now m k x s far result }
{
    for to in far..s + k {
        if x <= starts[32 * m + (to - s) as usize] {
            return to;
        }
    }
    far.max(s + k)
}

// The same by each mode.
fn reach(starts: &[u32; 1024], counts: &[u32; 32], row: &[u32; 32], s: u32, far: u32) -> u32
    requires { Few counts.now × (s ≤ far) × (far ≤ s + 32) × (s ≤ 32001) }
    ensures { (far ≤ result) × (result ≤ s + 32) × ((T : rules.Table) (c : ℕ) → rules.Accepted T → CountsOf T c counts.now → RanksOf T c 32 starts.now → Farther T c s (λ b. get_or row.now b 0) 32 far result) }
{
    let mut to = far;
    for (m, count) in counts.iter().enumerate() {
        to = reach_mode(starts, m, *count, row[m], s, to);
    }
    to
}

// The places of one cell, given the operations that write and read it: row after row, until none below the next number reaches it. No cell needs
// more than 32,001.
fn cell(
    cols: &[Dated; 32],
    follow: &[u32; 32],
    reached: u32,
    writers: u32,
    readers: u32,
    q: u32,
) -> u32
    requires { Short cols.now }
    ensures { (T : rules.Table) (c : ℕ) → CellOf T c cols.now follow.now reached writers readers → 1 ≤ q → ValuesRightAt T (spaced q) → IsPlaces T q c result }
{
    let counts = ranks::counts(cols, writers);
    let idle = idle_of(&counts);
    let mut starts = [0u32; 1024];
    ranks::fill(&mut starts, cols, writers);
    let mut ring = [0u32; 1056];
    offers::fill(&mut ring, cols, writers, readers, reached);
    let mut far: u32 = 0;
    for s in 0..32001u32 {
        if far < s {
            return s;
        }
        let slot = s as usize % 33;
        let row = remains::next_row(&ring, slot, follow, idle, q);
        far = reach(&starts, &counts, &row, s, far);
        ring::carry(&mut ring, &row, &counts, slot);
    }
    32001
}

// The places of each cell of a table at its period.
// What the searches are lent is made here as in `period`: a helper that hands it back costs 900 bytes more of stack.
pub fn each(t: Table, q: u32) -> [u32; 32]
    requires { Good t × IsPeriod (table_of t) q }
    ensures { (length result ≡ 32) × EachPlaces (table_of t) q (take t.cells result) }
{
    let follow = t.follow;
    let ops = t.ops;
    let cols = columns::columns(ops, t.count);
    let reached = turns::reached(&follow, t.first);
    let writers = cells::turned(&cols, |o| o.writes);
    let readers = cells::turned(&cols, |o| o.reads);
    let mut out = [0u32; 32];
    for c in 0..t.cells as usize {
        out[c] = cell(&cols, &follow, reached, writers[c], readers[c], q);
    }
    out
}
