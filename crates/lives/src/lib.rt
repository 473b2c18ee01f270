// Theorems about the lives of stored values and their places, in proofs/. No function but this one, which a crate has to have.
#![tactic(auto)]

ghost use Rattle.std.specs.Prelude.{◌≡◌};

pub fn none() -> u32
    ensures { result ≡ 0 }
{
    0
}
