// The masks of work of a rule, which its run is given beside the words of its image.
ghost use Rattle.std.specs.Prelude.{◌≤◌};
ghost use Rattle.run_word.specs.One.{NoChain};

// The masks of a rule, with its depth, its accepting state, and whether some depth has a chain.
// Both ghosts follow from what `run_over` asks (`Chosen`: `shallow` and `none`), so whoever has such masks can make one.
#[derive(Clone, Copy)]
pub struct Work {
    pub depth: usize,
    pub last: usize,
    pub any: bool,
    pub table: [u64; 81],
    pub backs: [u64; 16],
    ghost deep: { depth ≤ 8 },
    ghost none: { NoChain table depth any },
}
