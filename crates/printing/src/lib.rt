// What the programs print.
#![tactic(auto)]

ghost use Rattle.std.specs.Prelude.{◌≡◌, [], ◌≤◌, length, IfOk};
ghost use Rattle.rules.specs.Text.{text_of};
ghost use Rattle.rules.specs.Answers.{IsSaid, printed};
ghost use Rattle.fields.specs.Verdicts.{refusal_of};
ghost use Rattle.words.specs.Words.{asked_by};

use fields::Refusal;
use std::io;
use std::io::{Print, Read};
use words::Question;

// ---- input and output

// Reads until the buffer is full or the input ends: the number of bytes that were put at its front. (The library's read_to_end fills a Vec.)
pub fn read_full<R: Read>(input: &mut R, buf: &mut [u8]) -> io::Result<usize>
    ensures { IfOk result (λ n. n ≤ length buf.new) }
{
    let mut done: usize = 0;
    while done < buf.len() {
        let n = input.read(&mut buf[done..])?;
        if n == 0 {
            break;
        }
        done += n;
    }
    Ok(done)
}

// Says on standard error what failed, and why. Where that fails too, nothing is left to say.
pub fn fail(rt: &HostRuntime, what: &str, error: io::Error) {
    eprintln!(rt; "{what}: {error}").ok();
}

// Writes bytes, or says why it cannot.
pub fn print(rt: &HostRuntime, bytes: &[u8]) {
    if let Err(error) = rt.write_all(bytes) {
        fail(rt, "standard output", error);
    }
}

// ---- what is printed for a question, and for a refusal

// `emit_said`, `emit_list` and `emit_line` differ in what they require: docs/PROMISES.md names them as what a wrong text is refused by.

// Prints on standard output what is the text for a question, whole, and belongs there.
fn emit_said(rt: &HostRuntime, q: Question, s: &[u8], text: &[u8])
    requires { IsSaid (asked_by q) s.now text.now × (printed (asked_by q) text.now ≡ record { out = text.now; err = [] }) }
{
    print(rt, text);
}

// Prints on standard error what is the text for a question, whole, and belongs there.
fn emit_list(rt: &HostRuntime, q: Question, s: &[u8], text: &[u8])
    requires { IsSaid (asked_by q) s.now text.now × (printed (asked_by q) text.now ≡ record { out = []; err = text.now }) }
{
    rt.stderr().write_all(text).ok();
}

// Prints what is the text for a question, whole, on the stream where it belongs.
fn emit(rt: &HostRuntime, q: Question, s: &[u8], text: &[u8])
    requires { IsSaid (asked_by q) s.now text.now }
{
    if words::is_asked(q) {
        emit_said(rt, q, s, text);
    } else {
        emit_list(rt, q, s, text);
    }
}

// The text for a question about the bytes on standard input.
pub fn print_answer(rt: &HostRuntime, q: Question, s: &[u8]) {
    let text = planner::say(q, s);
    let counted = text.as_bytes();
    emit(rt, q, s, counted);
}

// The text for a table's bytes.
pub fn print_fold(rt: &HostRuntime, s: &[u8]) {
    print_answer(rt, Question::Fold, s);
}

// Prints what is the line of a refusal, whole, and nothing else.
fn emit_line(rt: &HostRuntime, r: Refusal, line: &[u8])
    requires { line.now ≡ text_of (refusal_of r) }
{
    print(rt, line);
}

// The line of a refusal.
pub fn print_refusal(rt: &HostRuntime, r: Refusal) {
    let line = text::refusal_text(r);
    let counted = line.as_bytes();
    emit_line(rt, r, counted);
}
