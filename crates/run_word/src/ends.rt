// The ends of a text and of a stretch for a rule of at most 64 states, from the words of its image.
ghost use Rattle.std.specs.Prelude.{◌-◌, ◌≤◌, [], ◌∷◌, length};
ghost use Rattle.model.specs.Models.Run.{ends_with};
ghost use Rattle.run_word.specs.Ends.{Limits, Noted, RanOver};
ghost use Rattle.run_word.specs.One.{one_masks};

use crate::places::note;
use crate::rounds::close;
use crate::stretch::{From, Ran, is_live, run_over};
use crate::table::work_of;
use image_sections::Image;

// The ends of a text for a rule of at most 64 states: the total, and the first that fit in what is lent, rising. A beginning, with place 0, and the text as
// one stretch.
pub fn find(image: &Image, text: &[u8], ends: &mut [u32]) -> u64
    requires { (image.now.sections.states ≤ 64) × (length text.now ≤ 65535) }
    ensures { Noted (ends_with (one_masks image.now.words.now) image.now.sections.depth (image.now.sections.states - 1) text.now)
        ends.old result ends.new }
{
    let work = work_of(image);
    let live = close(1, &work);
    let found = note(ends, 0, 0, is_live(live, work.last));
    let from = From {
        live,
        place: 0,
        found,
    };
    let ran = run_over(image.words, text, ends, from, &work);
    ran.total
}

// A stretch from any live states and any place: the live states after it, the total of its ends, and the first that fit.
pub fn go_on(image: &Image, live: u64, place: u64, stretch: &[u8], ends: &mut [u32]) -> Ran
    requires { (image.now.sections.states ≤ 64) × Limits place 0 stretch.now }
    ensures { RanOver (one_masks image.now.words.now) 1 image.now.sections.depth (image.now.sections.states - 1) place 0 stretch.now (live ∷ [])
        ends.old (result.live ∷ []) result.total ends.new }
{
    let work = work_of(image);
    let from = From {
        live,
        place,
        found: 0,
    };
    run_over(image.words, stretch, ends, from, &work)
}
