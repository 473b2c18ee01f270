// A refusal, or an answer, in numbers: what is printed of it, and what a C caller is told.
#![tactic(auto)]

ghost use Rattle.std.specs.Prelude.{◌≡◌, ℕ};
ghost use Rattle.rules.specs.Verdicts.{refused};
ghost use Rattle.fields.specs.Verdicts.{refusal_of};
ghost use Rattle.figures.specs.Figures.{figures_of};

use fields::Refusal;

// An answer in numbers: that of the refusal, or 0, and two figures.
#[derive(Clone, Copy, Debug, PartialEq, Eq)]
pub struct Figures {
    pub number: u32,
    pub a: u64,
    pub b: u64,
}

pub fn numbered(number: u32, a: usize, b: usize) -> Figures
    ensures { result ≡ figures_of number a b }
{
    Figures {
        number,
        a: a as u64,
        b: b as u64,
    }
}

// A refusal's number, a and b.
impl From<Refusal> for Figures {
    ghost from_gives = { λ r f. refusal_of {A = ℕ} r ≡ refused f.number f.a f.b };

    fn from(r: Refusal) -> Figures {
        match r {
            Refusal::Short(at) => numbered(1, at, 0),
            Refusal::Order(at) => numbered(2, at, 0),
            Refusal::Size(at) => numbered(3, at, 0),
            Refusal::Range(at, place) => numbered(4, at, place),
            Refusal::Many(at) => numbered(5, at, 0),
            Refusal::Clash(i, j) => numbered(6, i, j),
            Refusal::Race(i, j) => numbered(7, i, j),
            Refusal::Room(n) => numbered(8, n, 0),
            Refusal::Ask(place) => numbered(9, place, 0),
            Refusal::Early(d, i) => numbered(10, d, i),
        }
    }
}
