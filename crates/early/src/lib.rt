// Document 02, No. 4: the decider runs in every mode, and no other operation that does not starts before its end.
#![tactic(auto)]

ghost use Rattle.std.specs.Prelude.{◌≡◌, ◌<◌, ◌≤◌};
ghost use Rattle.rules.specs.Judge.{early_test};
ghost use Rattle.fields.specs.Verdicts.{answered};
ghost use Rattle.table.specs.Tables.{op_of, table_of, who_of};
ghost use Rattle.early.specs.Early.{early_in, early_from, Named};

use fields::Refusal;
use table::{Op, Table};

// The operation does not run in every mode, and starts before the decider's end.
fn too_early(modes: u32, decider: Op, o: Op) -> bool
    requires { modes ≤ 32 }
    ensures { result ≡ early_in modes (op_of decider) (op_of o) }
{
    if sets::is_all(modes, o.modes) {
        return false;
    }
    (o.start as u64) < table::end_of(decider)
}

// The lowest operation that starts too early for operation d.
fn first_early(t: Table, d: usize) -> Result<(), Refusal>
    requires { (t.count ≤ 32) × (t.modes ≤ 32) × (d < t.count) }
    ensures { answered result ≡ early_from (table_of t) d }
{
    let who = t.ops[d];
    for i in 0..t.count {
        if too_early(t.modes, who, t.ops[i]) {
            return Err(Refusal::Early(d, i));
        }
    }
    Ok(())
}

// The tests of the decider, which has to run in every mode itself.
pub fn early_test(t: Table) -> Result<(), Refusal>
    requires { (t.count ≤ 32) × (t.modes ≤ 32) × Named t }
    ensures { answered result ≡ early_test (table_of t) (who_of t.decider) }
{
    let Some(d) = t.decider else {
        return Ok(());
    };
    if !sets::is_all(t.modes, t.ops[d].modes) {
        return Err(Refusal::Early(d, d));
    }
    first_early(t, d)
}
