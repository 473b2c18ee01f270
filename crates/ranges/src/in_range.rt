ghost use Rattle.std.specs.Prelude.{◌≤◌};

// A table's length, and its counts once they are in range: a set of boards, cells or modes fits 32 bits.
#[derive(Clone, Copy)]
pub struct Counts {
    pub len: u32,
    pub boards: u32,
    pub cells: u32,
    pub modes: u32,
    ghost few_boards: { boards ≤ 32 },
    ghost few_cells: { cells ≤ 32 },
    ghost few_modes: { modes ≤ 32 },
}
