// The decider's field, written into a lent buffer where there is a decider.
#![tactic(auto)]

ghost use Rattle.std.specs.Prelude.{◌≡◌, [], ◌∷◌, ◌+◌, ◌<◌, ◌≤◌, length};
ghost use Rattle.rules.specs.Bytes.{field_bytes, decider_bytes};
ghost use Rattle.table.specs.Tables.{who_of};
ghost use Rattle.puts.specs.Puts.{stored};
ghost use Rattle.writing_decider.specs.WritingDecider.{Byte};

// How many bytes there are with the decider's field behind so many.
pub fn with_decider(at: usize, who: Option<usize>) -> usize
    requires { at < 1000 }
    ensures { result ≡ at + length (decider_bytes (who_of who)) }
{
    match who {
        None => at,
        Some(_) => at + 4,
    }
}

// The field itself.
fn put_field(out: &mut [u8], at: usize, d: u32)
    requires { (at + 4 ≤ length out.old) × (d < 256) }
    ensures { out.new ≡ stored out.old at (field_bytes 5 (d ∷ [])) }
{
    puts::put_header(out, at, 5, 1);
    puts::put8(out, at + 3, d);
}

// The field where somebody decides, and nothing where nobody does.
pub fn put_decider(out: &mut [u8], at: usize, who: Option<usize>)
    requires { (at + length (decider_bytes (who_of who)) ≤ length out.old) × Byte (who_of who) }
    ensures { out.new ≡ stored out.old at (decider_bytes (who_of who)) }
{
    if let Some(d) = who {
        put_field(out, at, d as u32);
    }
}
