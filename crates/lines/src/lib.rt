// The lines of the text: numbers in decimal behind words, each line at a place in a buffer.
#![tactic(auto)]

ghost use Rattle.std.specs.Prelude.{◌++◌, ◌+◌, ◌<◌, ◌≤◌, length};
ghost use Rattle.rules.specs.Text.{decimal, row_line, period_line, refused_line};
ghost use Rattle.rows.specs.Rows.{row_of};
ghost use Rattle.lines.specs.Lines.{Puts, line_of};

use figures::Figures;
use rows::{Row, Ticks};

// A number's digits, the highest first; the place behind them.
fn put_decimal(out: &mut [u8], at: usize, n: u64) -> usize
    requires { at + length (decimal n) ≤ length out.old }
    ensures { Puts out.old out.new at result (decimal n) }
{
    if n < 10 {
        out[at] = b'0' + n as u8;
        return at + 1;
    }
    let end = put_decimal(out, at, n / 10);
    out[end] = b'0' + (n % 10) as u8;
    end + 1
}

// Bytes, one after the other; the place behind them.
pub fn put_bytes(out: &mut [u8], at: usize, w: &[u8]) -> usize
    requires { at + length w.now ≤ length out.old }
    ensures { Puts out.old out.new at result w.now }
{
    let end = at + w.len();
    out[at..end].copy_from_slice(w);
    end
}

// A word and a number behind it.
pub fn put_part(out: &mut [u8], at: usize, w: &[u8], n: u64) -> usize
    requires { at + length (w.now ++ decimal n) ≤ length out.old }
    ensures { Puts out.old out.new at result (w.now ++ decimal n) }
{
    let end = put_bytes(out, at, w);
    put_decimal(out, end, n)
}

// "period q", 12 bytes at most
pub fn put_period_line(out: &mut [u8], at: usize, q: Ticks) -> usize
    requires { (at + 12 ≤ length out.old) × (q.0 ≤ 1000) }
    ensures { Puts out.old out.new at result (period_line q.0) }
{
    let end = put_part(out, at, b"period ", q.0 as u64);
    put_bytes(out, end, b"\n")
}

// A line of three words, each with a number behind it.
fn put_line(
    out: &mut [u8],
    at: usize,
    u: &[u8],
    x: u64,
    v: &[u8],
    y: u64,
    w: &[u8],
    z: u64,
) -> usize
    requires { at + length (line_of u.now x v.now y w.now z) ≤ length out.old }
    ensures { Puts out.old out.new at result (line_of u.now x v.now y w.now z) }
{
    let first = put_part(out, at, u, x);
    let second = put_part(out, first, v, y);
    let third = put_part(out, second, w, z);
    put_bytes(out, third, b"\n")
}

// The next two name a line and its bound.

// "op i start s fst f", 24 bytes at most
pub fn put_row_line(out: &mut [u8], at: usize, i: usize, r: Row) -> usize
    requires { (at + 24 ≤ length out.old) × (i < 100) × (r.start.0 < 1000) × (r.fst.0 < 1000) }
    ensures { Puts out.old out.new at result (row_line i (row_of r)) }
{
    let start = r.start.0 as u64;
    let fst = r.fst.0 as u64;
    put_line(out, at, b"op ", i as u64, b" start ", start, b" fst ", fst)
}

// "refused n a b", 71 bytes at most
pub fn put_refused_line(out: &mut [u8], at: usize, f: Figures) -> usize
    requires { at + 71 ≤ length out.old }
    ensures { Puts out.old out.new at result (refused_line f.number f.a f.b) }
{
    let number = f.number as u64;
    put_line(out, at, b"refused ", number, b" ", f.a, b" ", f.b)
}
