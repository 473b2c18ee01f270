// The planner: the public functions, one call each, with the promise that README and docs/PROMISES.md offer. Each promise is a definition of `rules`
// about the answer, told in document 01's numbers.
#![tactic(auto)]

ghost use Rattle.std.specs.Prelude.{◌≡◌, map};
ghost use Rattle.rules.specs.Answers.{IsPlan, IsFold, IsUnfold, IsMargin, IsPeriodOf, IsGapOf, BoardsFit, ValuesArrive, IsWrite};
ghost use Rattle.fields.specs.Verdicts.{answered, leaving};
ghost use Rattle.handed.specs.Handed.{numbers_of};
ghost use Rattle.folds.specs.Folds.{TextFor};
ghost use Rattle.words.specs.Words.{word_is, read_as, AsksFirst};
ghost use Rattle.saying.specs.Said.{SaidFor};

use fields::Refusal;
use handed::Numbers;
use text::Text;
use words::{Question, Word};

// A table's reply: its period and rows, from the front of the buffer. On a refusal every byte of it stays.
pub fn plan(s: &[u8], out: &mut [u8]) -> Result<usize, Refusal>
    ensures { IsPlan s.now out.old (leaving (answered result) out.new) }
{
    plans::plan(s, out)
}

// ---- a table's bytes in, the text of its reply or of its refusal out

// What the program `fold` prints: the period and the rows, or the refusal's line.
pub fn text(s: &[u8]) -> Text
    ensures { TextFor s.now result }
{
    folds::text_of(s)
}

// The same into a lent buffer. On ROOM every byte of it stays.
pub fn fold(s: &[u8], out: &mut [u8]) -> Result<usize, Refusal>
    ensures { IsFold s.now out.old (leaving (answered result) out.new) }
{
    folds::fold(s, out)
}

// ---- the words behind the program's name, and what it prints for them

// A word, read: the name of a question, a number, or neither.
pub fn word_of(w: &[u8]) -> Word
    ensures { word_is result ≡ read_as w.now }
{
    words::word_of(w)
}

// What words ask: all of them, or, of more than five, the first six at least.
pub fn question_of(words: &[Word]) -> Question
    ensures { AsksFirst (map word_is words.now) result }
{
    words::question_of(words)
}

// The text for a question about the bytes on standard input.
pub fn say(q: Question, s: &[u8]) -> Text
    ensures { SaidFor q s.now result }
{
    saying::say(q, s)
}

// ---- a reply back to starts, questions about a table, and a table from numbers

// The starts that a reply's rows came from, 2 bytes each. On a refusal every byte of the buffer stays.
pub fn unfold(s: &[u8], out: &mut [u8]) -> Result<usize, Refusal>
    ensures { IsUnfold s.now out.old (leaving (answered result) out.new) }
{
    starts::unfold(s, out)
}

// The margin of operations i and j at distance n and period q.
pub fn margin(s: &[u8], i: u64, j: u64, n: u64, q: u64) -> Result<i32, Refusal>
    ensures { IsMargin s.now i j n q (answered result) }
{
    margins::margin(s, i, j, n, q)
}

// Whether the boards fit at the period q.
pub fn boards_fit(s: &[u8], q: u64) -> Result<bool, Refusal>
    ensures { BoardsFit s.now q (answered result) }
{
    questions::boards_fit(s, q)
}

// Whether the values arrive at the period q.
pub fn values_arrive(s: &[u8], q: u64) -> Result<bool, Refusal>
    ensures { ValuesArrive s.now q (answered result) }
{
    questions::values_arrive(s, q)
}

// The period: the smallest that is right.
pub fn period_of(s: &[u8]) -> Result<u32, Refusal>
    ensures { IsPeriodOf s.now (answered result) }
{
    questions::period_of(s)
}

// The gap: the smallest that serves where the operator starts the cycles.
pub fn gap_of(s: &[u8]) -> Result<u32, Refusal>
    ensures { IsGapOf s.now (answered result) }
{
    questions::gap_of(s)
}

// The bytes of a table that is handed over as numbers; the decider counts where its mark is not 0. On a refusal every byte of the buffer stays.
pub fn write_table(n: Numbers, out: &mut [u8]) -> Result<usize, Refusal>
    ensures { IsWrite (numbers_of n.entry) out.old (leaving (answered result) out.new) }
{
    writing::write(n, out)
}
