// The text for a table's bytes: folded at its period, or refused.
#![tactic(auto)]

ghost use Rattle.rules.specs.Answers.{IsFold};
ghost use Rattle.fields.specs.Verdicts.{answered, leaving};
ghost use Rattle.table.specs.Tables.{table_of, Good};
ghost use Rattle.folds.specs.Folds.{TableText, TextFor};

use fields::Refusal;
use rows::Ticks;
use table::Table;
use text::Text;

// The text of an accepted table's reply.
fn table_text(t: Table) -> Text
    requires { Good t }
    ensures { TableText (table_of t) result }
{
    let q = period::smallest(t);
    text::reply_text(t, Ticks(q))
}

// What the program `fold` prints for a table's bytes: the period and the rows, or the refusal's line.
pub fn text_of(s: &[u8]) -> Text
    ensures { TextFor s.now result }
{
    match reading::read(s) {
        Ok(t) => table_text(t),
        Err(r) => text::refusal_text(r),
    }
}

// The same into a lent buffer. On ROOM every byte of it stays.
pub fn fold(s: &[u8], out: &mut [u8]) -> Result<usize, Refusal>
    ensures { IsFold s.now out.old (leaving (answered result) out.new) }
{
    let whole = text_of(s);
    let text = whole.as_bytes();
    text::put_text(out, text)
}
