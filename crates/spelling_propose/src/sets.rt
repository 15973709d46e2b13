// Sets of states as rows of eight words: one state more, the states of either of two, a state of one.
ghost use Rattle.std.specs.Prelude.{◌<◌};
ghost use Rattle.spelling_propose.specs.Work.{EitherSays, LowestSays, WithSays};

use mask::Mask;
use mask::bits::row_with_bit;
use mask::logic::or;

// The row with one state more.
pub fn with_state(row: [u64; 8], q: usize) -> [u64; 8]
    requires { q < 512 }
    ensures { WithSays row q result }
{
    row_with_bit(row, q)
}

// The states of either row.
pub fn either(a: [u64; 8], b: [u64; 8]) -> [u64; 8]
    ensures { EitherSays a b result }
{
    let r = or(Mask { words: a }, Mask { words: b }, 8);
    r.words
}

// The lowest state of a row; 0 where it has none. No `Option`: its one caller has a row with a state, and would have to show that once more.
pub fn lowest(row: [u64; 8]) -> usize
    ensures { LowestSays row result }
{
    for (i, word) in row.iter().enumerate() {
        if *word != 0 {
            return 64 * i + word.trailing_zeros() as usize;
        }
    }
    0
}
