// What is said for a question other than the fold's, by value: yes or no, a margin, a gap, the list of what can be asked.
#![tactic(auto)]

ghost use Rattle.std.specs.Prelude.{◌≡◌, ◌++◌, ◌+◌, ◌≤◌, nat_abs, length};
ghost use Rattle.rules.specs.Text.{told, yes_no_line, margin_word, signed, margin_line, gap_line, longest_text};
ghost use Rattle.rules.specs.Words.{askable};
ghost use Rattle.fields.specs.Verdicts.{answered};
ghost use Rattle.lines.specs.Lines.{Puts};
ghost use Rattle.text.specs.Texts.{text_in};

use fields::Refusal;
use text::{LONGEST, Text};

// Bytes as a text.
fn bytes_text(w: &[u8]) -> Text
    requires { length w.now ≤ longest_text }
    ensures { result ≡ text_in w.now }
{
    let mut bytes = [0u8; LONGEST];
    let len = lines::put_bytes(&mut bytes, 0, w);
    Text { bytes, len }
}

// "yes" or "no"
fn yes_no_text(said: bool) -> Text
    ensures { result ≡ text_in (yes_no_line said) }
{
    if said {
        return bytes_text(b"yes\n");
    }
    bytes_text(b"no\n")
}

// The answer to a question of yes or no.
pub fn truth_text(x: Result<bool, Refusal>) -> Text
    ensures { result ≡ text_in (told yes_no_line (answered x)) }
{
    x.map_or_else(text::refusal_text, yes_no_text)
}

// A margin without its sign.
fn unsigned(m: i32) -> u64
    ensures { result ≡ nat_abs m }
{
    m.unsigned_abs() as u64
}

// "margin m" without its end, 18 bytes at most: "a minus sign where it is negative"
fn put_margin(out: &mut [u8], at: usize, m: i32) -> usize
    requires { at + 18 ≤ length out.old }
    ensures { Puts out.old out.new at result (margin_word ++ signed m) }
{
    let n = unsigned(m);
    if m < 0 {
        return lines::put_part(out, at, b"margin -", n);
    }
    lines::put_part(out, at, b"margin ", n)
}

// The line of a margin.
fn margin_text(m: i32) -> Text
    ensures { result ≡ text_in (margin_line m) }
{
    let mut bytes = [0u8; LONGEST];
    let end = put_margin(&mut bytes, 0, m);
    let len = lines::put_bytes(&mut bytes, end, b"\n");
    Text { bytes, len }
}

// The answer to a question about a margin.
pub fn measured_text(x: Result<i32, Refusal>) -> Text
    ensures { result ≡ text_in (told margin_line (answered x)) }
{
    x.map_or_else(text::refusal_text, margin_text)
}

// The line of a gap. It ends as `margin_text` does: one function over a closure that writes the words is no plainer.
fn gap_line(g: u32) -> Text
    ensures { result ≡ text_in (gap_line g) }
{
    let mut bytes = [0u8; LONGEST];
    let end = lines::put_part(&mut bytes, 0, b"gap ", g as u64);
    let len = lines::put_bytes(&mut bytes, end, b"\n");
    Text { bytes, len }
}

// The answer to the question for the gap.
pub fn gap_text(x: Result<u32, Refusal>) -> Text
    ensures { result ≡ text_in (told gap_line (answered x)) }
{
    x.map_or_else(text::refusal_text, gap_line)
}

// The list of what can be asked.
pub fn askable_text() -> Text
    ensures { result ≡ text_in askable }
{
    bytes_text(
        b"fold: the period and the rows of the table on standard input\n\
          fold boards Q: do the boards fit at period Q\n\
          fold values Q: do the values arrive at period Q\n\
          fold margin I J N Q: ticks left from the end of step I to the start of step J, N cycles later, at period Q\n\
          fold unfold: the starts of the reply on standard input\n\
          fold gap: the smallest gap from one start to the next, for cycles that the operator starts\n\
          I, J, N, Q are decimal numbers\n",
    )
}
