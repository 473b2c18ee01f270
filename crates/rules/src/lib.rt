// Document 01's rules. The definitions are in specs/, and what is tried of them alone in proofs/Tried.
// A crate has to have a function: this is how many bytes of a table's input are looked at, at most.
#![tactic(auto)]

ghost use Rattle.std.specs.Prelude.{◌≡◌};
ghost use Rattle.rules.specs.Bytes.{farthest};

pub fn most_looked_at() -> usize
    ensures { result ≡ farthest }
{
    889
}
