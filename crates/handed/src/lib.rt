// A table handed over as numbers, judged.
#![tactic(auto)]

ghost use Rattle.std.specs.Prelude.{◌≡◌, ◌≤◌, ◌∷◌, length};
ghost use Rattle.rules.specs.Judge.{head_of_numbers, numbers_test, sets_wrong, judge_numbers};
ghost use Rattle.fields.specs.Verdicts.{answered};
ghost use Rattle.fields.specs.Fields.{IsPlace};
ghost use Rattle.table.specs.Tables.{JudgedAs, padded, table_in};
ghost use Rattle.handed.specs.Handed.{numbers_of, numbers_verdict, SmallWords, Small};

use fields::Refusal;
use table::Table;

// A table as it is handed over: the followers of each mode, six numbers for each operation, and for each a mark and a hold; the decider counts where its
// mark is not 0.
#[derive(Clone, Copy)]
pub struct Numbers<'a> {
    pub len: u64,
    pub boards: u64,
    pub cells: u64,
    pub modes: u64,
    pub first: u64,
    pub follow: &'a [u64],
    pub ops: &'a [u64],
    pub holds: &'a [u64],
    pub mark: u64,
    pub decider: u64,
}

// ---- what stands before the operations

// Which set is wrong first of the first modes and the words, if one is no set of modes or empty: where it would begin in the field.
fn sets_wrong(modes: u32, first: u64, follow: &[u64]) -> Option<usize>
    requires { (modes ≤ 32) × (length follow.now ≤ 32) }
    ensures { IsPlace result (sets_wrong modes (first ∷ follow.now)) }
{
    if !sets::is_set_of(modes, first) {
        return Some(3);
    }
    for (m, word) in follow.iter().enumerate() {
        if !sets::is_set_of(modes, *word) {
            return Some(7 + 4 * m);
        }
    }
    None
}

// The tests of the numbers before the operations, and that there are operations.
fn head_test(n: Numbers) -> Result<(), Refusal>
    ensures { answered result ≡ numbers_test (numbers_of n.entry) }
{
    fields::range_test(ranges::len_wrong(n.len), 0)?;
    fields::range_test(ranges::counts_wrong(n.boards, n.cells, n.modes), 5)?;
    if n.follow.len() != n.modes as usize {
        return Err(Refusal::Size(11));
    }
    fields::range_test(sets_wrong(n.modes as u32, n.first, n.follow), 11)?;
    if handed_ops::none_left(n.ops, n.holds, 0) {
        return Err(Refusal::Order(table::ops_place(n.modes as u32)));
    }
    Ok(())
}

// The words as the table has them, zero behind them.
fn words_of(follow: &[u64]) -> [u32; 32]
    requires { (length follow.now ≤ 32) × SmallWords follow.now }
    ensures { result ≡ padded 32 0 follow.now }
{
    let mut words = [0u32; 32];
    for (i, word) in follow.iter().enumerate() {
        words[i] = *word as u32;
    }
    words
}

// The table with no operations.
fn head_of(n: Numbers) -> Table
    requires { Small (head_of_numbers (numbers_of n)) }
    ensures { result ≡ table_in (head_of_numbers (numbers_of n.entry)) }
{
    Table {
        len: n.len as u32,
        boards: n.boards as u32,
        cells: n.cells as u32,
        modes: n.modes as u32,
        first: n.first as u32,
        follow: words_of(n.follow),
        ..table::empty()
    }
}

// The judgement up to the operations.
fn judge_fields(n: Numbers) -> Result<Table, Refusal>
    ensures { JudgedAs (numbers_verdict (numbers_of n.entry)) result }
{
    head_test(n)?;
    handed_ops::take_ops(head_of(n), n.ops, n.holds)
}

// The whole judgement.
pub fn judge(n: Numbers) -> Result<Table, Refusal>
    ensures { JudgedAs (judge_numbers (numbers_of n.entry)) result }
{
    let decider = deciders::marked(n.mark, n.decider);
    whole::judge(deciders::hand(judge_fields(n), decider))
}
