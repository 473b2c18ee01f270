// The bound of the values, raised by the readers of one value at one distance.
#![tactic(auto)]

ghost use Rattle.std.specs.Prelude.{◌≡◌, true, ◌≤◌, get_or};
ghost use Rattle.rules.specs.Sets.{shares};
ghost use Rattle.columns.specs.Columns.{Short};
ghost use Rattle.arrivals.specs.Arrivals.{Every, ReaderFine};
ghost use Rattle.raises.specs.Raises.{Raised, InTime};

use columns::Dated;
use sets::Members;

// The bound, raised until what is written at `end` is in time for a reader that starts n + 1 cycles later, if the value comes to one of its
// fresh modes.
fn ask_reader(modes: u32, fresh: u32, end: u32, start: u32, n: u32, bound: u32) -> u32
    requires { (end ≤ 1000) × (start ≤ 1000) × (n ≤ 1000) × (bound ≤ 1000) }
    ensures { Raised bound (λ q. shares modes fresh ≡ true → InTime end start n q) result }
{
    if !sets::meets(modes, fresh) {
        return bound;
    }
    raises::in_time(end, start, n, bound)
}

// The bound, raised by every reader of a value that has come to the modes `modes` after n + 1 turns.
pub fn ask_readers(
    cols: &[Dated; 32],
    readers: u32,
    fresh: &[u32; 32],
    modes: u32,
    end: u32,
    n: u32,
    bound: u32,
) -> u32
    requires { Short cols.now × (end ≤ 1000) × (n ≤ 1000) × (bound ≤ 1000) }
    ensures { Raised bound (Every (ReaderFine cols.now (λ j. get_or fresh.now j 0) modes end n) readers) result }
{
    let mut most = bound;
    for m in Members(readers) {
        let j = m as usize;
        most = ask_reader(modes, fresh[j], end, columns::start(cols, j), n, most);
    }
    most
}
