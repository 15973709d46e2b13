// Masks: document 01, "A mask is one record of eight 64-bit words in work". By value everywhere; state i is bit i mod 64 of word i / 64.

#![tactic(auto)]

ghost use Rattle.std.specs.Prelude.{◌≡◌, replicate};
ghost use Rattle.mask.specs.Rows.{Upto};

pub mod bits;
pub mod logic;
pub mod sums;

#[derive(Clone, Copy)]
pub struct Mask {
    pub words: [u64; 8],
}

// The mask of no state.
pub fn none() -> Mask
    ensures { result.words ≡ replicate 8 0 }
{
    Mask { words: [0; 8] }
}

// How many of n words a mask has.
pub fn upto(n: usize) -> usize
    ensures { Upto n result }
{
    n.min(8)
}
