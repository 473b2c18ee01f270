// Counting the operations of a set by lent columns: those that run in a mode, and how many of them end by a date.
#![tactic(auto)]

ghost use Rattle.std.specs.Prelude.{◌≡◌, ◌<◌, ◌≤◌};
ghost use Rattle.columns.specs.Columns.{Short};
ghost use Rattle.counting.specs.Counting.{InMode, ended_of};

use columns::Dated;
use sets::Members;

// The operations of a set that run in mode m.
pub fn in_mode(cols: &[Dated; 32], ops: u32, m: u32) -> u32
    requires { m < 32 }
    ensures { InMode cols.now ops m result }
{
    let mut all: u32 = 0;
    for u in Members(ops) {
        if sets::meets(columns::modes(cols, u as usize), 1u32 << m) {
            all = sets::with(all, u);
        }
    }
    all
}

// How many operations of a set end by a date.
pub fn ended(cols: &[Dated; 32], ops: u32, by: u32) -> u32
    requires { Short cols.now }
    ensures { (result ≡ ended_of cols.now ops by) × (result ≤ 32) }
{
    let mut n: u32 = 0;
    for u in Members(ops) {
        if columns::end(cols, u as usize) <= by {
            n += 1;
        }
    }
    n
}
