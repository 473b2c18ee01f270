// Reads at most 4096 bytes of standard input and prints what the words behind the program's name ask about them; without words the
// period and the rows of a table. Words that ask nothing get the list of what can be asked, and nothing is read.
#![tactic(auto)]

ghost use Rattle.std.specs.Prelude.{◌≡◌, ◌≤◌, length};

use std::env::{Env, FillError};
use words::{Question, Word};

// No word that the system hands over is longer: 131,072 bytes have room for it and its end.
const LONGEST_WORD: usize = 131072;

fn room() -> [u8; LONGEST_WORD]
    ensures { 131072 ≡ length result }
{
    [0; LONGEST_WORD]
}

// Word i, counted from the program's own name. Where there are no words, no room is made for one.
#[inline(never)]
fn fetch(rt: &HostRuntime, i: usize) -> Word {
    let mut word = room();
    match rt.arg(i, &mut word) {
        Ok(n) => planner::word_of(&word[..n]),
        Err(_) => Word::Other,
    }
}

// Whether the system hands over a word i.
fn is_there(rt: &HostRuntime, i: usize) -> bool {
    let mut none = [0u8; 0];
    !matches!(rt.arg(i, &mut none), Err(FillError::NotPresent))
}

// How many words stand behind the program's name. No question has more than five, so that six say enough.
fn word_count(rt: &HostRuntime) -> usize
    ensures { result ≤ 6 }
{
    for i in 0..6 {
        if !is_there(rt, i + 1) {
            return i;
        }
    }
    6
}

// What the words ask.
fn question(rt: &HostRuntime) -> Question {
    let n = word_count(rt);
    let mut words = [Word::Other; 6];
    for (i, word) in words[..n].iter_mut().enumerate() {
        *word = fetch(rt, i + 1);
    }
    planner::question_of(&words[..n])
}

// What is asked about the bytes on standard input.
fn answer(rt: &HostRuntime, q: Question) {
    let mut input = [0u8; 4096];
    match printing::read_full(&mut rt.stdin(), &mut input) {
        Ok(n) => printing::print_answer(rt, q, &input[..n]),
        Err(error) => printing::fail(rt, "standard input", error),
    }
}

fn main(rt: HostRuntime) {
    let q = question(&rt);
    if words::is_asked(q) {
        answer(&rt, q);
    } else {
        printing::print_answer(&rt, q, b"");
    }
}
