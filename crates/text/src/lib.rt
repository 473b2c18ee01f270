// The text that `fold` prints, by value: the lines of a reply or of a refusal.
#![tactic(auto)]

ghost use Rattle.std.specs.Prelude.{◌≡◌, ◌+◌, ◌*◌, ◌≤◌, length, take};
ghost use Rattle.rules.specs.Rows.{reply_of};
ghost use Rattle.rules.specs.Text.{row_lines, reply_text, text_of};
ghost use Rattle.rules.specs.Answers.{put};
ghost use Rattle.fields.specs.Verdicts.{refusal_of, answered, leaving};
ghost use Rattle.table.specs.Tables.{table_of, Good};
ghost use Rattle.lines.specs.Lines.{Puts};
ghost use Rattle.text.specs.Texts.{text_in};

use fields::Refusal;
use figures::Figures;
use rows::Ticks;
use table::Table;

// No text has more bytes (`Text.longest_text` in `rules`).
pub const LONGEST: usize = 780;

// A text: its first `len` bytes count, and the others are zero.
#[derive(Clone, Copy)]
pub struct Text {
    pub bytes: [u8; LONGEST],
    pub len: usize,
}

impl Text {
    // The bytes that count.
    pub fn as_bytes(&self) -> &[u8]
        requires { self.now.len ≤ length self.now.bytes }
        ensures { result.now ≡ take self.now.len self.now.bytes }
    {
        &self.bytes[..self.len]
    }
}

// The lines of the table's rows at the period q, each of 24 bytes at most.
fn put_row_lines(out: &mut [u8], at: usize, t: Table, q: Ticks) -> usize
    requires { Good t × (1 ≤ q.0) × (q.0 ≤ t.len) × (at + 24 * t.count ≤ length out.old) }
    ensures { Puts out.old out.new at result (row_lines 0 (reply_of (table_of t) q.0).rows) }
{
    let mut end = at;
    for i in 0..t.count {
        let r = replies::row_of(t, i, q);
        end = lines::put_row_line(out, end, i, r);
    }
    end
}

// The text of a table folded at the period q.
pub fn reply_text(t: Table, q: Ticks) -> Text
    requires { Good t × (1 ≤ q.0) × (q.0 ≤ t.len) }
    ensures { result ≡ text_in (reply_text (reply_of (table_of t) q.0)) }
{
    let mut bytes = [0u8; LONGEST];
    let end = lines::put_period_line(&mut bytes, 0, q);
    let len = put_row_lines(&mut bytes, end, t, q);
    Text { bytes, len }
}

// The line of a refusal.
pub fn refusal_text(r: Refusal) -> Text
    ensures { result ≡ text_in (text_of (refusal_of r)) }
{
    let mut bytes = [0u8; LONGEST];
    let len = lines::put_refused_line(&mut bytes, 0, Figures::from(r));
    Text { bytes, len }
}

// A text's bytes from the front of a lent buffer, or ROOM.
pub fn put_text(out: &mut [u8], text: &[u8]) -> Result<usize, Refusal>
    ensures { leaving (answered result) out.new ≡ put text.now out.old }
{
    let n = text.len();
    if out.len() < n {
        return Err(Refusal::Room(n));
    }
    out[..n].copy_from_slice(text);
    Ok(n)
}
