// The gap: the smallest time from one start of a cycle to the next at which every sequence of starts is right. It is one bound, raised by the
// values and then by the boards; no gap is tried.
#![tactic(auto)]

ghost use Rattle.std.specs.Prelude.{◌<◌, ◌≤◌};
ghost use Rattle.rules.specs.Gaps.{IsGap};
ghost use Rattle.table.specs.Tables.{table_of, Good};
ghost use Rattle.columns.specs.Columns.{Short};
ghost use Rattle.arrivals.specs.Arrivals.{Each};
ghost use Rattle.raises.specs.Raises.{Raised};
ghost use Rattle.gaps.specs.Holders.{ModesOf, HolderFine};

use columns::Dated;
use table::Table;

// The modes of each operation, as the search over distances takes them.
fn modes_of(cols: &[Dated; 32]) -> [u32; 32]
    ensures { ModesOf cols.now 32 result }
{
    let mut out = [0u32; 32];
    for (j, modes) in out.iter_mut().enumerate() {
        *modes = columns::modes(cols, j);
    }
    out
}

// The bound, raised until operation i has let go of its boards by the start of each operation that shares one, at every distance. A board is
// like a value that no cycle hides: who comes to it again at a further distance asks for less.
fn ask_holder(
    cols: &[Dated; 32],
    follow: &[u32],
    reached: u32,
    modes: &[u32; 32],
    i: usize,
    bound: u32,
) -> u32
    requires { Short cols.now × ModesOf cols.now 32 modes.now × (i < 32) × (1 ≤ bound) × (bound ≤ 1000) }
    ensures { Raised bound (HolderFine follow.now cols.now reached i) result }
{
    let later = laters::later_of(cols, i, bound);
    let early = cells::earliest(cols, later);
    let from = reached & columns::modes(cols, i);
    let held = columns::held(cols, i);
    values::ask_turns(cols, follow, later, modes, 0, from, held, early, bound)
}

// The bound, raised by every operation.
fn boards_bound(cols: &[Dated; 32], follow: &[u32], reached: u32, bound: u32) -> u32
    requires { Short cols.now × (1 ≤ bound) × (bound ≤ 1000) }
    ensures { Raised bound (Each (HolderFine follow.now cols.now reached) 32) result }
{
    let modes = modes_of(cols);
    let mut most = bound;
    for i in 0..32usize {
        most = ask_holder(cols, follow, reached, &modes, i, most);
    }
    most
}

// The smallest gap that serves.
// What the searches are lent is made here as in `period`: a helper that hands it back costs 900 bytes more of stack.
pub fn smallest(t: Table) -> u32
    requires { Good t }
    ensures { IsGap (table_of t) result }
{
    let follow = t.follow;
    let ops = t.ops;
    let cols = columns::columns(ops, t.count);
    let reached = turns::reached(&follow, t.first);
    let bound = values::values_bound(&follow, &cols, t.cells, reached);
    boards_bound(&cols, &follow, reached, bound)
}
