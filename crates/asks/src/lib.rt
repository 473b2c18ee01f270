// What is asked for, against its range.
#![tactic(auto)]

ghost use Rattle.std.specs.Prelude.{◌≡◌, true, ◌↔◌, ◌≤◌};

// From 1 to a bound: a distance to 1000, a period to the table's length.
pub fn in_range(x: u64, top: u64) -> bool
    ensures { (result ≡ true) ↔ ((1 ≤ x) × (x ≤ top)) }
{
    (1..=top).contains(&x)
}
