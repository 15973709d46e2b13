// The ends of a text and of a stretch: the places where the accepting state is live. A rule of at most 64 states runs on plain words.
ghost use Rattle.std.specs.Prelude.{◌-◌, ◌≤◌, ◌<◌, length};
ghost use Rattle.model.specs.Models.Run.{ends_with};
ghost use Rattle.run.specs.Says.{FindSays, GoOnSays};
ghost use Rattle.run.specs.Work.{Goes, masks_of};
ghost use Rattle.run_word.specs.Ends.{Noted};

use crate::rounds::close;
use crate::rows::row_at;
use crate::stretch::{From, Ran, is_live, run_over};
use crate::table::Work;
use image_sections::Image;
use run_moves::start;
use run_word::places::note;

// The ends of the text with the table of the words: a beginning, with place 0, and the text as one stretch.
fn find_words(image: &Image, text: &[u8], ends: &mut [u32]) -> u64
    requires { (64 < image.now.sections.states) × (length text.now ≤ 65535) }
    ensures { Noted (ends_with (masks_of image.now.words.now) image.now.sections.depth (image.now.sections.states - 1) text.now)
        ends.old result ends.new }
{
    let masks = Work::of(image);
    let last = image.sections.states - 1;
    let first = close(start(), 8, &masks);
    let live = first.words;
    let found = note(ends, 0, 0, is_live(&live, last));
    let from = From {
        live,
        place: 0,
        found,
    };
    let ran = run_over(
        image.words,
        text,
        ends,
        from,
        image.sections.width,
        last,
        &masks,
    );
    ran.total
}

// The ends of a text: the total, and the first that fit in what is lent, rising.
pub fn find(image: &Image, text: &[u8], ends: &mut [u32]) -> u64
    requires { length text.now ≤ 65535 }
    ensures { FindSays image.now.words.now text.now ends.old result ends.new }
{
    if image.sections.states <= 64 {
        return run_word::ends::find(image, text, ends);
    }
    find_words(image, text, ends)
}

// A stretch from the words of a mask and any place, of a rule of more than 64 states.
fn go_on_words(image: &Image, mask: &[u64], place: u64, stretch: &[u8], ends: &mut [u32]) -> Ran
    requires { Goes image.now.words.now image.now.sections mask.now place stretch.now × (64 < image.now.sections.states) }
    ensures { GoOnSays image.now.words.now mask.now place stretch.now ends.old result.words result.total ends.new }
{
    let width = image.sections.width;
    let last = image.sections.states - 1;
    let from = From {
        live: row_at(mask, 0, width),
        place,
        found: 0,
    };
    run_over(
        image.words,
        stretch,
        ends,
        from,
        width,
        last,
        &Work::of(image),
    )
}

// The same of a rule of at most 64 states.
fn go_on_word(image: &Image, mask: &[u64], place: u64, stretch: &[u8], ends: &mut [u32]) -> Ran
    requires { Goes image.now.words.now image.now.sections mask.now place stretch.now × (image.now.sections.states ≤ 64) }
    ensures { GoOnSays image.now.words.now mask.now place stretch.now ends.old result.words result.total ends.new }
{
    let first = mask[0];
    let ran = run_word::ends::go_on(image, first, place, stretch, ends);
    let mut words = [0u64; 8];
    words[0] = ran.live;
    Ran {
        words,
        total: ran.total,
    }
}

// A stretch from the words of a mask and any place: the live states after it, the total of its ends, and the first that fit.
pub fn go_on(image: &Image, mask: &[u64], place: u64, stretch: &[u8], ends: &mut [u32]) -> Ran
    requires { Goes image.now.words.now image.now.sections mask.now place stretch.now }
    ensures { GoOnSays image.now.words.now mask.now place stretch.now ends.old result.words result.total ends.new }
{
    if image.sections.states <= 64 {
        return go_on_word(image, mask, place, stretch, ends);
    }
    go_on_words(image, mask, place, stretch, ends)
}
