// A bound for periods, raised until an operation in a later cycle comes in time.
#![tactic(auto)]

ghost use Rattle.std.specs.Prelude.{◌≤◌};
ghost use Rattle.raises.specs.Raises.{Raised, InTime};

// The bound, raised until what ends at `end` has ended by `start` n + 1 cycles later. The quotient is rounded up.
pub fn in_time(end: u32, start: u32, n: u32, bound: u32) -> u32
    requires { (end ≤ 1001) × (start ≤ 1000) × (n ≤ 1000) × (bound ≤ 1000) }
    ensures { Raised bound (InTime end start n) result }
{
    if end <= start + (n + 1) * bound {
        return bound;
    }
    (end - start).div_ceil(n + 1)
}
