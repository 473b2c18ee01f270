// Document 01's cases, the papers' own examples, the analyzers' tables and the largest table: each file of data/ is read, and its
// name and what `fold` prints for it are printed. Then K1 into 11 and into 12 bytes. What is expected is what the
// independent planner prints.
#![tactic(auto)]

ghost use Rattle.std.specs.Prelude.{◌≤◌, length, IfOk};

use fields::Refusal;
use std::fmt::Display;
use std::{fs, io};

// The tables of data/, in the order in which they are printed.
const TABLES: [&str; 46] = [
    // document 01
    "k01",
    "k02",
    "k03",
    "k04",
    "k05",
    "k06",
    "k07",
    "k08",
    "k09",
    "k10",
    "k10-touching",
    // document 01, the others
    "empty",
    "k01-duration-5",
    "k01-duration-4",
    "k01-length-1000",
    "k01-length-1001",
    "k01-32-times",
    "k01-33-times",
    // the papers' own
    "fig-4",
    "fig-8",
    "fig-14",
    "fig-11",
    "fig-11-every-turn",
    "knock",
    // the analyzers
    "notch",
    "notch-cold-to-warm",
    "analyzer-typed-turns",
    "analyzer-cold-to-warm",
    "analyzer-check-reading",
    "analyzer-rinse",
    // tables with a decider
    "k01-decides",
    "analyzer-decides",
    "analyzer-decides-early",
    "analyzer-sorted",
    // tables with a hold
    "k01-hold",
    "probe",
    "probe-polarised",
    "probe-too-soon",
    "notch-polarised",
    // tables with a number or set out of its range
    "slip-board",
    "slip-followers",
    "slip-two",
    "slip-hold",
    // the largest table
    "largest",
    // tables whose cycles the operator starts
    "button",
    "button-rinse",
];

// Prints a line, its text and then its end, or says of each why it cannot.
fn line(rt: &HostRuntime, text: impl Display + Drop) {
    if let Err(error) = print!(rt; "{text}") {
        printing::fail(rt, "standard output", error);
    }
    printing::print(rt, b"\n");
}

// A file's bytes, at most as many as the buffer has.
fn read(rt: &HostRuntime, path: &str, buf: &mut [u8]) -> io::Result<usize>
    ensures { IfOk result (λ n. n ≤ length buf.new) }
{
    let mut file = fs::open(rt, path)?;
    printing::read_full(&mut file, buf)
}

// Does `work` on a file's bytes, or says why they cannot be read.
fn with_bytes<F: FnOnce(&[u8])>(rt: &HostRuntime, path: &str, work: F)
    requires { F.IsAlwaysCallable work }
{
    let mut input = [0u8; 4096];
    match read(rt, path, &mut input) {
        Ok(n) => work(&input[..n]),
        Err(error) => printing::fail(rt, path, error),
    }
}

// A file's name, and what is printed for its bytes.
fn one(rt: &HostRuntime, path: &str) {
    line(rt, path);
    with_bytes(rt, path, |s| printing::print_fold(rt, s));
}

// ---- K1 into few bytes

fn say(rt: &HostRuntime, answer: Result<usize, Refusal>) {
    match answer {
        Ok(n) => {
            printing::print(rt, b"wrote ");
            line(rt, n);
        }
        Err(r) => printing::print_refusal(rt, r),
    }
}

fn into_few(rt: &HostRuntime, s: &[u8]) {
    let mut few = [0u8; 12];
    for (n, what) in [(11, "k01 into 11 bytes"), (12, "k01 into 12 bytes")] {
        line(rt, what);
        say(rt, planner::plan(s, &mut few[..n]));
    }
}

fn main(rt: HostRuntime) {
    for name in TABLES {
        one(&rt, name);
    }
    with_bytes(&rt, "k01", |s| into_few(&rt, s));
}
