// The run over a stretch of bytes, from any live states and any place, for a rule of any size.
ghost use Rattle.std.specs.Prelude.{◌≡◌, ◌/◌, ◌<◌, false, length, take};
ghost use Rattle.model.specs.Bits.{bit};
ghost use Rattle.model.specs.Models.Words.{value};
ghost use Rattle.run.specs.Work.{NoBack, Overs, rule_masks, Sources};
ghost use Rattle.run_word.specs.Ends.{RanOver};

use crate::table::{Work, all_sources};
use crate::widths::step_by;
use mask::Mask;
use run_word::places::note;

// The live states after a stretch, and the total of its ends with those found before.
#[derive(Clone, Copy)]
pub struct Ran {
    pub words: [u64; 8],
    pub total: u64,
}

// Whether a state is live, looked up where the live states lie: a copy of eight words for each place would cost a tenth of a byte's time.
pub fn is_live(live: &[u64], state: usize) -> bool
    requires { state / 64 < length live.now }
    ensures { result ≡ bit (value live.now) state }
{
    (live[state / 64] >> (state % 64)) & 1 == 1
}

// Where a stretch begins: the live states, the place in the whole text, and how many ends were found before.
#[derive(Clone, Copy)]
pub struct From {
    pub live: [u64; 8],
    pub place: u64,
    pub found: usize,
}

// A step for each byte, and its place in the whole text noted if the accepting state is then live.
fn run_by<const BACK: bool>(
    image: &[u64],
    stretch: &[u8],
    places: &mut [u32],
    from: From,
    width: usize,
    last: usize,
    work: &Work,
    sources: Mask,
) -> Ran
    requires { Overs image.now stretch.now from.place from.found width work.now.depth last work.now.table
        × Sources work.now.table work.now.depth sources.words × (BACK ≡ false → NoBack work.now.table work.now.depth) }
    ensures { RanOver (rule_masks image.now width work.now.table) width work.now.depth last from.place from.found stretch.now (take width from.live)
        places.old result.words result.total places.new }
{
    let mut live = from.live;
    let mut total = from.found;
    for (p, byte) in stretch.iter().enumerate() {
        step_by::<BACK>(&mut live, image, width, *byte, work, sources);
        total = note(
            places,
            total,
            (from.place + p as u64 + 1) as u32,
            is_live(&live, last),
        );
    }
    Ran {
        words: live,
        total: total as u64,
    }
}

// Whether there are back edges is asked once: asked at each byte, a rule without them would pay for them.
pub fn run_over(
    image: &[u64],
    stretch: &[u8],
    places: &mut [u32],
    from: From,
    width: usize,
    last: usize,
    work: &Work,
) -> Ran
    requires { Overs image.now stretch.now from.place from.found width work.now.depth last work.now.table }
    ensures { RanOver (rule_masks image.now width work.now.table) width work.now.depth last from.place from.found stretch.now (take width from.live)
        places.old result.words result.total places.new }
{
    let sources = all_sources(work);
    if sources.words == [0; 8] {
        return run_by::<false>(image, stretch, places, from, width, last, work, sources);
    }
    run_by::<true>(image, stretch, places, from, width, last, work, sources)
}
