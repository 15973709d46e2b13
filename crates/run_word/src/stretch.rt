// The run over a stretch of bytes, from any live states and any place, for a rule of at most 64 states. The loop stands once, and is
// given its own part of a step as a closure: the compiler makes a loop for each of them.
ghost use Rattle.std.specs.Prelude.{◌≡◌, ◌<◌, ◌≤◌, Bool, List, ℕ, [], ◌∷◌, slice_index};
ghost use Rattle.model.specs.Bits.{bit};
ghost use Rattle.model.specs.Models.Words.{value};
ghost use Rattle.run_word.specs.One.{Closed, one_masks, Passed, table_masks, work_masks};
ghost use Rattle.run_word.specs.Stretch.{Chosen, Closes, Overs, RanFrom};

use crate::places::note;
use crate::rounds::close;
use crate::steps::{moved, pass};
use crate::table::any_back;
use crate::work::Work;

// Where a stretch begins: the live states, the place in the whole text, and how many ends were found before.
#[derive(Clone, Copy)]
pub struct From {
    pub live: u64,
    pub place: u64,
    pub found: usize,
}

// The live states after a stretch, and the total of its ends with those found before.
#[derive(Clone, Copy)]
pub struct Ran {
    pub live: u64,
    pub total: u64,
}

pub fn is_live(live: u64, state: usize) -> bool
    requires { state < 64 }
    ensures { result ≡ bit (value (live ∷ [])) state }
{
    (live >> state) & 1 == 1
}

// A step for each byte: the move by it, and all that `reach` leads to from there. Its place in the whole text is noted if the accepting state is then live.
// The words and the bytes are lent as they are, not in a record: a slice within one does not show that what it holds are words and bytes.
#[inline(always)]
fn over<F: Fn(u64) -> u64>(
    image: &[u64],
    stretch: &[u8],
    ends: &mut [u32],
    from: From,
    last: usize,
    reach: F,
) -> Ran
    requires begins { Overs image.now stretch.now from last }
    requires callable { F.IsAlwaysCallable reach }
    ensures { (any : Bool) (block below target : ℕ) (table backs : List ℕ) (d : ℕ) → Closes (table_masks image.now any block below target table backs) d (F.post reach)
        → RanFrom (table_masks image.now any block below target table backs) d last stretch.now from ends.old result ends.new }
{
    let mut live = from.live;
    let mut total = from.found;
    for (p, byte) in stretch.iter().enumerate() {
        live = reach(moved(live, image, *byte));
        total = note(
            ends,
            total,
            (from.place + (p as u64 + 1)) as u32,
            is_live(live, last),
        );
    }
    Ran {
        live,
        total: total as u64,
    }
}

// The loop of a rule without back edges for one depth, and for rules with chains or without.
fn over_fixed<const DEPTH: usize, const ANY: bool>(
    image: &[u64],
    stretch: &[u8],
    ends: &mut [u32],
    from: From,
    work: &Work,
) -> Ran
    requires { Overs image.now stretch.now from work.now.last × (DEPTH ≤ 8) }
    ensures { RanFrom (work_masks image.now ANY work.now.table []) DEPTH work.now.last stretch.now from
        ends.old result ends.new }
{
    let reach = |live: u64| -> u64
        requires { DEPTH ≤ 8 }
        ensures { let t = work.entry.now.table in Passed ANY (slice_index t 6) (slice_index t 7) (slice_index t 8) t DEPTH live result }
    { pass(live, DEPTH, ANY, &work.table) };
    over(image, stretch, ends, from, work.last, reach)
}

// The same for any depth. This one alone, called with literals for the depth and the presence of chains, is not unfolded: a byte takes 35 instructions
// where it takes 22 (depth 0).
fn over_plain(image: &[u64], stretch: &[u8], ends: &mut [u32], from: From, work: &Work) -> Ran
    requires { Overs image.now stretch.now from work.now.last }
    ensures { RanFrom (work_masks image.now work.now.any work.now.table []) work.now.depth work.now.last stretch.now from
        ends.old result ends.new }
{
    // Read once: a byte takes 136 instructions where it takes 131 (depth 3) if each step asks the record for them.
    let depth = work.depth;
    let any = work.any;
    let reach = |live: u64| -> u64
        requires { depth ≤ 8 }
        ensures { let t = work.entry.now.table in Passed any (slice_index t 6) (slice_index t 7) (slice_index t 8) t depth live result }
    { pass(live, depth, any, &work.table) };
    over(image, stretch, ends, from, work.last, reach)
}

// The loop of a rule with back edges: each step closes in two rounds.
fn over_back(image: &[u64], stretch: &[u8], ends: &mut [u32], from: From, work: &Work) -> Ran
    requires { Overs image.now stretch.now from work.now.last }
    ensures { RanFrom (work_masks image.now work.now.any work.now.table work.now.backs) work.now.depth work.now.last stretch.now from
        ends.old result ends.new }
{
    let reach = |live: u64| -> u64
        ensures { Closed work.entry.now.any work.entry.now.table work.entry.now.backs work.entry.now.depth live result }
    { close(live, work) };
    over(image, stretch, ends, from, work.last, reach)
}

// The loop is chosen once, before the stretch: a rule without back edges pays nothing for them after this. The masks are copied: no store through `ends`
// can change the copy, so the compiler reads it once.
pub fn run_over(image: &[u64], stretch: &[u8], ends: &mut [u32], from: From, work: &Work) -> Ran
    requires { Chosen image.now stretch.now from work.now.last work.now.depth work.now.any work.now.table work.now.backs }
    ensures { RanFrom (one_masks image.now) work.now.depth work.now.last stretch.now from ends.old result ends.new }
{
    let w = *work;
    if any_back(work) {
        return over_back(image, stretch, ends, from, &w);
    }
    match (w.depth, w.any) {
        (0, true) => over_fixed::<0, true>(image, stretch, ends, from, &w),
        (0, false) => over_fixed::<0, false>(image, stretch, ends, from, &w),
        (1, true) => over_fixed::<1, true>(image, stretch, ends, from, &w),
        (1, false) => over_fixed::<1, false>(image, stretch, ends, from, &w),
        (2, _) => over_fixed::<2, true>(image, stretch, ends, from, &w),
        _ => over_plain(image, stretch, ends, from, &w),
    }
}
