// Two operations: whether they clash, and whether they race.
#![tactic(auto)]

ghost use Rattle.std.specs.Prelude.{◌≡◌};
ghost use Rattle.rules.specs.Sets.{overlaps};
ghost use Rattle.rules.specs.Judge.{clashes, races};
ghost use Rattle.table.specs.Tables.{op_of};

use table::Op;

// From a up to but not including b, and from c up to but not including d, have a tick in common.
#[tactic(auto, unfolding(rules::specs::Sets::overlaps))]
fn overlap(a: u64, b: u64, c: u64, d: u64) -> bool
    ensures { result ≡ overlaps a b c d }
{
    a < d && c < b
}

// Two operations clash: they share a board and a mode, and overlap.
#[tactic(auto, unfolding(rules::specs::Judge::clashes))]
pub fn clash(o: Op, u: Op) -> bool
    ensures { result ≡ clashes (op_of o) (op_of u) }
{
    sets::meets(o.boards, u.boards)
        && sets::meets(o.modes, u.modes)
        && overlap(
            u64::from(o.start),
            table::held_to(o),
            u64::from(u.start),
            table::held_to(u),
        )
}

// Two operations race: they share a mode, overlap, and one writes a cell that the other reads or writes. The dates are looked at first: few overlap.
#[tactic(auto, unfolding(rules::specs::Judge::races))]
pub fn race(o: Op, u: Op) -> bool
    ensures { result ≡ races (op_of o) (op_of u) }
{
    overlap(
        u64::from(o.start),
        table::end_of(o),
        u64::from(u.start),
        table::end_of(u),
    ) && sets::meets(o.modes, u.modes)
        && (sets::meets(o.writes, u.reads | u.writes) || sets::meets(o.reads, u.writes))
}
