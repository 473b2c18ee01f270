// Sets of boards, cells or modes, each a number: m is a member of s where bit m of s is 1. Union and intersection are `|` and `&`.
#![tactic(auto)]

ghost use Rattle.std.specs.Prelude.{◌≡◌, ◌+◌, ◌^◌, ◌<◌, ◌≤◌, eqb, ltb, get_or};
ghost use Rattle.std.specs.Int.Bits.{bit_or};
ghost use Rattle.rules.specs.Sets.{has, shares};
ghost use Rattle.rules.specs.Judge.{set_ok};
ghost use Rattle.theory.specs.Tests.{without, step};
ghost use Rattle.std.specs.Iterator.{at_most};
ghost use Rattle.sets.specs.Members.{IsLowest};
ghost use Rattle.sets.specs.Walks.{IsNext};

// s and t share a member
pub fn meets(s: u32, t: u32) -> bool
    ensures { result ≡ shares s t }
{
    s & t != 0
}

// the members of s that are not in t
pub fn without(s: u32, t: u32) -> u32
    ensures { result ≡ without s t }
{
    s ^ (s & t)
}

// s names nothing beyond the first n
pub fn is_within(n: u32, s: u64) -> bool
    requires { n ≤ 32 }
    ensures { result ≡ ltb s (2 ^ n) }
{
    s < (1u64 << n)
}

// s names each of the first n, and nothing beyond them
pub fn is_all(n: u32, s: u32) -> bool
    requires { n ≤ 32 }
    ensures { result ≡ eqb (s + 1) (2 ^ n) }
{
    s as u64 + 1 == (1u64 << n)
}

// s is not empty, and names nothing beyond the first n
pub fn is_set_of(n: u32, s: u64) -> bool
    requires { n ≤ 32 }
    ensures { result ≡ set_ok n s }
{
    if s == 0 {
        return false;
    }
    is_within(n, s)
}

// the member of s that comes first
pub fn lowest(s: u32) -> u32
    requires { 0 < s }
    ensures { IsLowest s result }
{
    s.trailing_zeros()
}

// s without m: what a walk over the members has left
pub fn rest(s: u32, m: u32) -> u32
    requires { m < 32 }
    ensures { result ≡ without s (2 ^ m) }
{
    without(s, 1u32 << m)
}

// s with m
pub fn with(s: u32, m: u32) -> u32
    requires { m < 32 }
    ensures { result ≡ bit_or s (2 ^ m) }
{
    s | (1u32 << m)
}

// The members of a set, one after the other, the lowest first.
#[derive(Drop)]
pub struct Members(pub u32);

impl Iterator for Members {
    type Item = u32;

    ghost next_gives = { IsNext };

    ghost remaining = { λ left. at_most left.0 };

    fn next(&mut self) -> Option<u32> {
        if self.0 == 0 {
            return None;
        }
        let m = lowest(self.0);
        self.0 = rest(self.0, m);
        Some(m)
    }
}

// what the words have for mode m: nothing where they end before it
fn word(words: &[u32], m: u32) -> u32
    ensures { result ≡ get_or words.now m 0 }
{
    words.get(m as usize).copied().unwrap_or(0)
}

// one turn of a set of modes: all that follows a mode of s, where follow[m] is the set of the followers of mode m. Only the members of s are
// visited, the lowest first.
pub fn step(follow: &[u32], s: u32) -> u32
    ensures { result ≡ step follow.now s }
{
    let mut all: u32 = 0;
    for m in Members(s) {
        all |= word(follow, m);
    }
    all
}
