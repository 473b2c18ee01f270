// All the pairs of a table's operations: the first clash, the first race; and the judgement of the whole table, by them and by its decider.
#![tactic(auto)]

ghost use Rattle.std.specs.Prelude.{◌≡◌, ℕ, ◌≤◌, Bool};
ghost use Rattle.rules.specs.Verdicts.{CLASH, RACE};
ghost use Rattle.rules.specs.Table as rules;
ghost use Rattle.rules.specs.Judge.{clashes, races, pairs_test, judge_whole};
ghost use Rattle.fields.specs.Verdicts.{answered};
ghost use Rattle.table.specs.Tables.{table_of, JudgedAs};
ghost use Rattle.early.specs.Early.{Named};
ghost use Rattle.whole.specs.Whole.{TestsBy, FirstPair, both_tests, whole_test, whole_on, Ready};

use fields::Refusal;
use table::{Op, Table};

// The first pair that is hit, by lower number and then higher.
fn first_pair<F: Fn(Op, Op) -> bool>(t: Table, hit: F) -> Option<(usize, usize)>
    requires few { t.count ≤ 32 }
    requires calls { F.IsAlwaysCallable hit }
    ensures { (h : rules.Op → rules.Op → Bool) → TestsBy (F.post hit) t h → (number : ℕ) → FirstPair result h number (table_of t) }
{
    let mut found = None;
    'pairs: for i in 0..t.count {
        for j in i + 1..t.count {
            if hit(t.ops[i], t.ops[j]) {
                found = Some((i, j));
                break 'pairs;
            }
        }
    }
    found
}

// What is left of the next two beside `first_pair` is which refusal they tell.
// The first pair that clashes.
fn first_clash(t: Table) -> Result<(), Refusal>
    requires { t.count ≤ 32 }
    ensures { answered result ≡ pairs_test clashes CLASH (table_of t) }
{
    match first_pair(t, pairs::clash) {
        None => Ok(()),
        Some((i, j)) => Err(Refusal::Clash(i, j)),
    }
}

// The first pair that races.
fn first_race(t: Table) -> Result<(), Refusal>
    requires { t.count ≤ 32 }
    ensures { answered result ≡ pairs_test races RACE (table_of t) }
{
    match first_pair(t, pairs::race) {
        None => Ok(()),
        Some((i, j)) => Err(Refusal::Race(i, j)),
    }
}

// The tests over all pairs: any clash comes before any race.
fn pairs_test(t: Table) -> Result<(), Refusal>
    requires { t.count ≤ 32 }
    ensures { answered result ≡ both_tests (table_of t) }
{
    first_clash(t)?;
    first_race(t)
}

// All tests of the whole: the decider is asked for only where no pair is refused.
fn whole_test(t: Table) -> Result<(), Refusal>
    requires { (t.count ≤ 32) × (t.modes ≤ 32) × Named t }
    ensures { answered result ≡ whole_test (table_of t) }
{
    pairs_test(t)?;
    early::early_test(t)
}

// A table whose fields are judged, judged whole: a refusal stays.
pub fn judge(judged: Result<Table, Refusal>) -> Result<Table, Refusal>
    requires { Ready judged }
    ensures { JudgedAs (whole_on judged) result }
{
    let t = judged?;
    whole_test(t)?;
    Ok(t)
}
