// A cell: which operations read and write it, the modes in which it is written between two dates, and those in which a reader finds what an
// earlier cycle left there. Everything is asked of lent columns, and only the operations that use the cell are visited.
#![tactic(auto)]

ghost use Rattle.std.specs.Prelude.{ℕ, ◌≡◌, ◌<◌, ◌≤◌, length};
ghost use Rattle.std.specs.Fn.{FnReturnsAt};
ghost use Rattle.columns.specs.declared.Dated.{Dated};
ghost use Rattle.columns.specs.Columns.{dates, Short};
ghost use Rattle.cells.specs.Cells.{Added, Turned, modes_within, ended_in, last_of, fresh_of, FreshSets, Early};

use columns::Dated;
use sets::Members;

// ---- who uses each cell

// Operation k is added to the set of each of these cells.
fn add_user(users: &mut [u32; 32], k: u32, cells: u32)
    requires { (k < 32) × (length users.old ≡ 32) }
    ensures { Added users.old k cells users.new }
{
    for c in Members(cells) {
        let i = c as usize;
        users[i] = sets::with(users[i], k);
    }
}

// For each cell the operations that have it in the set that `of` says: those that read it, by `|o| o.reads`, or those that write it.
pub fn turned<F: Fn(&Dated) -> u32>(cols: &[Dated; 32], of: F) -> [u32; 32]
    requires { F.IsAlwaysCallable of }
    ensures { (sets : Dated → ℕ) → ((d : Dated) (r : ℕ) → FnReturnsAt F.Fn of d r → r ≡ sets d) → Turned (λ k. sets (dates cols.now k)) result }
{
    let mut users = [0u32; 32];
    for (k, o) in cols.iter().enumerate() {
        add_user(&mut users, k as u32, of(o));
    }
    users
}

// ---- the modes in which it is written

// The modes of an operation that ends after one date and by another.
fn modes_within(cols: &[Dated; 32], k: usize, after: u32, by: u32) -> u32
    requires { (k < 32) × Short cols.now }
    ensures { result ≡ modes_within cols.now after by k }
{
    let end = columns::end(cols, k);
    if end <= after {
        return 0;
    }
    if by < end {
        return 0;
    }
    columns::modes(cols, k)
}

// The modes of all the operations of a set that do.
pub fn ended_within(cols: &[Dated; 32], ops: u32, after: u32, by: u32) -> u32
    requires { Short cols.now }
    ensures { result ≡ ended_in cols.now ops after by }
{
    let mut all: u32 = 0;
    for k in Members(ops) {
        all |= modes_within(cols, k as usize, after, by);
    }
    all
}

// The modes of a writer in which no other ends after it: it is the last to write the cell. No operation ends after tick 1000.
pub fn last_in(cols: &[Dated; 32], writers: u32, i: usize) -> u32
    requires { (i < 32) × Short cols.now }
    ensures { result ≡ last_of cols.now writers i }
{
    let end = columns::end(cols, i);
    sets::without(
        columns::modes(cols, i),
        ended_within(cols, writers, end, 1000),
    )
}

// ---- the modes in which it is read

// The modes of a reader in which no writer ends by its start: it finds what an earlier cycle left there.
fn fresh_in(cols: &[Dated; 32], writers: u32, j: usize) -> u32
    requires { (j < 32) × Short cols.now }
    ensures { result ≡ fresh_of cols.now writers j }
{
    let start = columns::start(cols, j);
    sets::without(
        columns::modes(cols, j),
        ended_within(cols, writers, 0, start),
    )
}

// The same for each reader; nobody asks for the set of another operation.
pub fn fresh_sets(cols: &[Dated; 32], writers: u32, readers: u32) -> [u32; 32]
    requires { Short cols.now }
    ensures { FreshSets cols.now writers readers result }
{
    let mut out = [0u32; 32];
    for m in Members(readers) {
        let j = m as usize;
        out[j] = fresh_in(cols, writers, j);
    }
    out
}

// A tick before which no reader starts: as the walk goes, the start of the first, or 1000 where there is none.
pub fn earliest(cols: &[Dated; 32], readers: u32) -> u32
    ensures { Early cols.now readers result }
{
    let mut early: u32 = 1000;
    for j in Members(readers) {
        early = early.min(columns::start(cols, j as usize));
    }
    early
}
