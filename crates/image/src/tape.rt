// The tape of a row of tokens.
ghost use Rattle.std.specs.Prelude.{◌≡◌};
ghost use Rattle.image.specs.Work.{KindsAre};

use tokens::kind::kind_in;
use tokens_masks::Tape;

// The tokens without their classes.
pub fn tape_of(tokens: &[u64; 2555], length: usize) -> Tape
    ensures long { result.length ≡ length }
    ensures kinds { KindsAre tokens.now result.kinds }
{
    let mut kinds = [0u8; 512];
    for i in 0..511 {
        kinds[i] = kind_in(tokens[5 * i]);
    }
    Tape { kinds, length }
}
