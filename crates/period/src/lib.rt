// The period: whether boards fit and values arrive at a period, and the smallest at which both do.
#![tactic(auto)]

ghost use Rattle.std.specs.Prelude.{◌≡◌, true, ◌↔◌, ◌≤◌};
ghost use Rattle.rules.specs.Runs.{BoardsRightAt, ValuesRightAt, spaced, IsPeriod};
ghost use Rattle.table.specs.Tables.{table_of, Good};

use table::Table;

// The four lines that make what the searches are lent stand in each function: a helper that hands it back costs 900 bytes more of stack.

// No two running steps hold one board at once, in any run: the sweep that begins at q ends there.
pub fn boards_fit(t: Table, q: u32) -> bool
    requires { Good t × (1 ≤ q) × (q ≤ t.len) }
    ensures { (result ≡ true) ↔ BoardsRightAt (table_of t) (spaced q) }
{
    let follow = t.follow;
    let ops = t.ops;
    let cols = columns::columns(ops, t.count);
    let reached = turns::reached(&follow, t.first);
    boards::first_right(&follow, &cols, t.len, reached, q) == q
}

// Every step reads the value it would have read with no overlap, in any run.
pub fn values_arrive(t: Table, q: u32) -> bool
    requires { Good t × (1 ≤ q) }
    ensures { (result ≡ true) ↔ ValuesRightAt (table_of t) (spaced q) }
{
    let follow = t.follow;
    let ops = t.ops;
    let cols = columns::columns(ops, t.count);
    let reached = turns::reached(&follow, t.first);
    values::values_bound(&follow, &cols, t.cells, reached) <= q
}

// The smallest right period: values are right exactly from a bound up, so the sweep over the boards begins there.
pub fn smallest(t: Table) -> u32
    requires { Good t }
    ensures { IsPeriod (table_of t) result }
{
    let follow = t.follow;
    let ops = t.ops;
    let cols = columns::columns(ops, t.count);
    let reached = turns::reached(&follow, t.first);
    let bound = values::values_bound(&follow, &cols, t.cells, reached);
    boards::first_right(&follow, &cols, t.len, reached, bound)
}
