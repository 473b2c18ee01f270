// Bytes stored into a lent buffer, at a place: numbers, most significant byte first, and the header of a field.
#![tactic(auto)]

ghost use Rattle.std.specs.Prelude.{◌≡◌, [], ◌∷◌, ◌+◌, ◌<◌, ◌≤◌, length};
ghost use Rattle.rules.specs.Bytes.{be16, be32};
ghost use Rattle.puts.specs.Puts.{stored};

// A number in one byte.
pub fn put8(out: &mut [u8], at: usize, x: u32)
    requires { (at + 1 ≤ length out.old) × (x < 256) }
    ensures { out.new ≡ stored out.old at (x ∷ []) }
{
    out[at] = x as u8;
}

// The two low bytes of a number.
pub fn put16(out: &mut [u8], at: usize, x: u32)
    requires { at + 2 ≤ length out.old }
    ensures { out.new ≡ stored out.old at (be16 x) }
{
    out[at..at + 2].copy_from_slice(&x.to_be_bytes()[2..]);
}

// A number in four bytes.
pub fn put32(out: &mut [u8], at: usize, x: u32)
    requires { at + 4 ≤ length out.old }
    ensures { out.new ≡ stored out.old at (be32 x) }
{
    out[at..at + 4].copy_from_slice(&x.to_be_bytes());
}

// The header of a field: its tag, and the length of its value.
pub fn put_header(out: &mut [u8], at: usize, tag: u32, size: u32)
    requires { (at + 3 ≤ length out.old) × (tag < 256) }
    ensures { out.new ≡ stored out.old at (tag ∷ be16 size) }
{
    put8(out, at, tag);
    put16(out, at + 1, size);
}
