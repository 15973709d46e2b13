// One byte for each number of words: the number is a const parameter, handed down as a literal, and every loop over words becomes straight code, since all
// that is called on the way is unfolded. Which number it is is asked once for each byte. The live states are borrowed and not handed on, so that only the
// words that count are moved.
ghost use Rattle.std.specs.Prelude.{◌≡◌, false};
ghost use Rattle.run.specs.Work.{NoBack, SteppedOn, Turns};

use crate::rounds::come_round;
use crate::steps::{moved, pass};
use crate::table::Work;
use mask::Mask;
use run_moves::same;

// With N words. The second round is made only in a rule with back edges, and only where they add something.
#[inline(always)]
fn step<const N: usize, const BACK: bool>(
    live: &mut [u64; 8],
    image: &[u64],
    byte: u8,
    work: &Work,
    sources: Mask,
)
    requires { Turns image.now N work.now.depth work.now.table sources.words × (BACK ≡ false → NoBack work.now.table work.now.depth) }
    ensures { SteppedOn N image.now byte work.now.depth work.now.table live.old live.new }
{
    let words = *live;
    let on = moved(Mask { words }, image, N, N, byte);
    let first = pass(on, N, work);
    if !BACK {
        let words = first.words;
        *live = words;
        return;
    }
    let more = come_round(first, N, work, sources);
    if same(more, first, N) {
        let words = first.words;
        *live = words;
        return;
    }
    let second = pass(more, N, work);
    let words = second.words;
    *live = words;
}

// The same with n words. No match: the jump through its table made a byte of six words 1.27 times as dear as these tests.
#[inline(always)]
pub fn step_by<const BACK: bool>(
    live: &mut [u64; 8],
    image: &[u64],
    n: usize,
    byte: u8,
    work: &Work,
    sources: Mask,
)
    requires { Turns image.now n work.now.depth work.now.table sources.words × (BACK ≡ false → NoBack work.now.table work.now.depth) }
    ensures { SteppedOn n image.now byte work.now.depth work.now.table live.old live.new }
{
    if n <= 4 {
        if n <= 2 {
            return step::<2, BACK>(live, image, byte, work, sources);
        }
        if n == 3 {
            return step::<3, BACK>(live, image, byte, work, sources);
        }
        return step::<4, BACK>(live, image, byte, work, sources);
    }
    if n <= 6 {
        if n == 5 {
            return step::<5, BACK>(live, image, byte, work, sources);
        }
        return step::<6, BACK>(live, image, byte, work, sources);
    }
    if n == 7 {
        return step::<7, BACK>(live, image, byte, work, sources);
    }
    step::<8, BACK>(live, image, byte, work, sources);
}
