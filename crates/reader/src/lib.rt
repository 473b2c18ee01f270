// The field reader: the lent bytes and a place in them. Its functions are thin: the tests are those of `fields`, on a slice and a place.
#![tactic(auto)]

ghost use Rattle.std.specs.Prelude.{◌≡◌, ◌<◌, ◌≤◌, length};
ghost use Rattle.fields.specs.Verdicts.{answered};
ghost use Rattle.fields.specs.Fields.{field_of, repeat_of};

use fields::Refusal;

#[derive(Clone, Copy)]
pub struct Reader<'a> {
    pub src: &'a [u8],
    pub at: usize,
}

// At the front of the bytes.
pub fn new<'a>(src: &'a [u8]) -> Reader<'a>
    ensures { (result.src ≡ src.entry) × (result.at ≡ 0) }
{
    Reader { src, at: 0 }
}

impl<'a> Reader<'a> {
    // At another place of the same bytes.
    pub fn moved(self, at: usize) -> Reader<'a>
        ensures { (result.src ≡ self.entry.src) × (result.at ≡ at) }
    {
        Reader { src: self.src, at }
    }

    // The tests, but the ranges, of a field that is there once.
    pub fn field(self, tag: u8, size: usize) -> Result<(), Refusal>
        requires { size ≤ 255 }
        ensures { answered result ≡ field_of self.entry.src.now self.entry.at tag size }
    {
        fields::field_test(self.src, self.at, tag, size)
    }

    // The tests, but the ranges, of a field that may be repeated, when `left` more may come.
    pub fn repeated(self, left: usize, tag: u8, size: usize) -> Result<(), Refusal>
        requires { (self.at < length self.src.now) × (size ≤ 255) }
        ensures { answered result ≡ repeat_of self.entry.src.now self.entry.at left tag size }
    {
        fields::repeat_test(self.src, self.at, left, tag, size)
    }
}

// The field at a place of a slice, by a reader that is moved there.
pub fn field_at(s: &[u8], at: usize, tag: u8, size: usize) -> Result<(), Refusal>
    requires { size ≤ 255 }
    ensures { answered result ≡ field_of s.now at tag size }
{
    new(s).moved(at).field(tag, size)
}

// The field that may be repeated, at a place inside a slice, by a reader that is moved there.
pub fn repeated_at(s: &[u8], at: usize, left: usize, tag: u8, size: usize) -> Result<(), Refusal>
    requires { (at < length s.now) × (size ≤ 255) }
    ensures { answered result ≡ repeat_of s.now at left tag size }
{
    new(s).moved(at).repeated(left, tag, size)
}
