// Fields: numbers in bytes, and the tests of one field in document 01's order.
#![tactic(auto)]

ghost use Rattle.std.specs.Prelude.{◌≡◌, ℕ, ◌+◌, ◌^◌, ◌<◌, ◌≤◌, length, IfSome};
ghost use Rattle.rules.specs.Bytes.{num8, num16, num32};
ghost use Rattle.rules.specs.Judge.{ranged};
ghost use Rattle.fields.specs.Verdicts.{answered};
ghost use Rattle.fields.specs.Fields.{sized_of, field_of, repeat_of, IsPlace, told_wrong};

// A refusal: its name in the documents, and its a and b where they are not always 0.
#[derive(Clone, Copy, Debug, PartialEq, Eq)]
pub enum Refusal {
    Short(usize),
    Order(usize),
    Size(usize),
    Range(usize, usize),
    Many(usize),
    Clash(usize, usize),
    Race(usize, usize),
    Room(usize),
    Ask(usize),
    Early(usize, usize),
}

// The number in one byte.
pub fn byte(s: &[u8], at: usize) -> u32
    requires { at < length s.now }
    ensures { (result ≡ num8 s.now at) × (result < 256) }
{
    s[at] as u32
}

// The number in two bytes, most significant first.
pub fn be16(s: &[u8], at: usize) -> u32
    requires { at + 1 < length s.now }
    ensures { (result ≡ num16 s.now at) × (result < 65536) }
{
    byte(s, at) * 256 + byte(s, at + 1)
}

// The number in four bytes, most significant first.
pub fn be32(s: &[u8], at: usize) -> u32
    requires { at + 3 < length s.now }
    ensures { result ≡ num32 s.now at }
{
    be16(s, at) * 65536 + be16(s, at + 2)
}

// The header and the length of the value of a field that is there, then its completeness.
fn sized_test(s: &[u8], at: usize, size: usize) -> Result<(), Refusal>
    requires { (at + 3 ≤ length s.now) × (size ≤ 255) }
    ensures { answered result ≡ sized_of s.now at size }
{
    if be16(s, at + 1) != size as u32 {
        return Err(Refusal::Size(at));
    }
    if s.len() - at < 3 + size {
        return Err(Refusal::Short(at));
    }
    Ok(())
}

// A field that is there once: all its tests but the ranges.
pub fn field_test(s: &[u8], at: usize, tag: u8, size: usize) -> Result<(), Refusal>
    requires { size ≤ 255 }
    ensures { answered result ≡ field_of s.now at tag size }
{
    let n = s.len();
    if n <= at {
        return Err(Refusal::Order(at));
    }
    if n - at < 3 {
        return Err(Refusal::Short(at));
    }
    if s[at] != tag {
        return Err(Refusal::Order(at));
    }
    sized_test(s, at, size)
}

// A field that may be repeated, at a place inside the input, when `left` more may come: all its tests but the ranges.
pub fn repeat_test(s: &[u8], at: usize, left: usize, tag: u8, size: usize) -> Result<(), Refusal>
    requires { (at < length s.now) × (size ≤ 255) }
    ensures { answered result ≡ repeat_of s.now at left tag size }
{
    if s.len() - at < 3 {
        return Err(Refusal::Short(at));
    }
    if s[at] != tag {
        return Err(Refusal::Order(at));
    }
    if left == 0 {
        return Err(Refusal::Many(at));
    }
    sized_test(s, at, size)
}

// The answer of a range test on the field at a place, by where in the field the first wrong number begins, if one is wrong.
pub fn range_test(wrong: Option<usize>, at: usize) -> Result<(), Refusal>
    requires { IfSome wrong (λ w. at + w < 2 ^ 64) }
    ensures ruled { (n : ℕ) → IsPlace wrong n → answered result ≡ ranged n at }
    ensures told { answered result ≡ told_wrong wrong at }
{
    match wrong {
        None => Ok(()),
        Some(wrong) => Err(Refusal::Range(at, at + wrong)),
    }
}
