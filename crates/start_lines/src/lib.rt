// A reply's starts as a text, by value: a line for each row, or the line of its refusal.
#![tactic(auto)]

ghost use Rattle.std.specs.Prelude.{◌≡◌, ◌+◌, ◌*◌, ◌<◌, ◌≤◌, length};
ghost use Rattle.rules.specs.Verdicts.{accepted};
ghost use Rattle.rules.specs.Judge.{judge_reply};
ghost use Rattle.rules.specs.Text.{start_line, starts_text, told};
ghost use Rattle.rows.specs.Rows.{ticks_of};
ghost use Rattle.starts.specs.Starts.{heard};
ghost use Rattle.lines.specs.Lines.{Puts};
ghost use Rattle.text.specs.Texts.{text_in};
ghost use Rattle.start_lines.specs.StartLines.{LinesPut};

use rows::Ticks;
use text::{LONGEST, Text};

// "op i start t", 23 bytes at most for any t
#[tactic(auto, using(crate::specs::StartLineLaws::op_digits, crate::specs::StartLineLaws::date_digits))]
fn put_start_line(out: &mut [u8], at: usize, i: usize, t: Ticks) -> usize
    requires { (at + 23 ≤ length out.old) × (i < 100) }
    ensures { Puts out.old out.new at result (start_line i (ticks_of t)) }
{
    let first = lines::put_part(out, at, b"op ", i as u64);
    let second = lines::put_part(out, first, b" start ", t.0 as u64);
    lines::put_bytes(out, second, b"\n")
}

// The lines of the first n rows, from the front of the buffer.
fn put_lines(s: &[u8], out: &mut [u8], n: usize) -> usize
    requires { (5 + 7 * n ≤ length s.now) × (n ≤ 32) × (23 * n ≤ length out.old) }
    ensures { LinesPut s.now n out.old out.new result }
{
    let mut end = 0;
    for i in 0..n {
        let start = starts::start_at(s, 5 + 7 * i);
        end = put_start_line(out, end, i, start);
    }
    end
}

// The lines of a reply that is accepted.
#[tactic(auto, using(starts::specs::StartLaws::heard_size, crate::specs::StartLineLaws::rows_few))]
fn rows_text(s: &[u8]) -> Text
    requires { heard (judge_reply s.now) ≡ accepted tt }
    ensures { result ≡ text_in (told starts_text (judge_reply s.now)) }
{
    let n = (s.len() - 5) / 7;
    let mut bytes = [0u8; LONGEST];
    let len = put_lines(s, &mut bytes, n);
    Text { bytes, len }
}

// The starts that a reply's rows came from.
pub fn starts_text(s: &[u8]) -> Text
    ensures { result ≡ text_in (told starts_text (judge_reply s.now)) }
{
    match starts::judge(s) {
        Err(r) => text::refusal_text(r),
        Ok(()) => rows_text(s),
    }
}
