// What a C caller is told of the code's answers.
#![tactic(auto)]

ghost use Rattle.std.specs.Prelude.{◌≡◌};
ghost use Rattle.fields.specs.Verdicts.{answered};
ghost use Rattle.figures.specs.Figures.{figures_of};
ghost use Rattle.telling.specs.Telling.{told_of, unwritten, yes_of, ended, ended_with};

use fields::Refusal;
use figures::Figures;

// A verdict after which nothing is written.
pub fn verdict_told(v: Result<(), Refusal>) -> Figures
    ensures { result ≡ told_of (unwritten (answered v)) }
{
    v.map_or_else(Figures::from, |()| figures::numbered(0, 0, 0))
}

// An answer with the number of bytes written.
pub fn answer_told(x: Result<usize, Refusal>) -> Figures
    ensures { result ≡ told_of (answered x) }
{
    x.map_or_else(Figures::from, |n| figures::numbered(0, n, 0))
}

// The period, or the gap.
pub fn found_told(x: Result<u32, Refusal>) -> Figures
    ensures { result ≡ told_of (answered x) }
{
    x.map_or_else(Figures::from, |q| figures::numbered(0, q as usize, 0))
}

// The answer to a question with a yes or a no: 1 for yes and 0 for no.
pub fn truth_told(x: Result<bool, Refusal>) -> Figures
    ensures { result ≡ told_of (yes_of (answered x)) }
{
    x.map_or_else(
        Figures::from,
        |yes| figures::numbered(0, usize::from(yes), 0),
    )
}

// The answer to a question about a margin; the margin is left with the caller.
pub fn measured_told(x: Result<i32, Refusal>, margin: &mut i32) -> Figures
    ensures { ended result margin.new ≡ ended_with (answered x) margin.old }
{
    // `map_or_else` is no plainer where the value is also written to its place.
    match x {
        Ok(z) => {
            *margin = z;
            figures::numbered(0, 0, 0)
        }
        Err(r) => Figures::from(r),
    }
}

// Leaves the figures with the caller and returns the number.
pub fn tell(f: Figures, a: &mut u64, b: &mut u64) -> u32
    ensures { figures_of result a.new b.new ≡ f }
{
    *a = f.a;
    *b = f.b;
    f.number
}
