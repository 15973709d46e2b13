// The watch (document 02, Wish 1): journals as they arrive. It begins with an image, takes one stretch of bytes at a time, and hands back its mask, its
// place and the ends found in that stretch. Nothing else is kept between calls. No caller is trusted: the image is checked in every call, and a refusal
// changes nothing that was lent.

#![tactic(auto)]

mod words;

ghost use Rattle.model.specs.Watch.{BeginSays, StepSays, watch};
ghost use Rattle.answers.specs.Answers.{answered};

use crate::words::{is_mask, put_words};
use answers::Refusal;
use image_check::check;
use mask::bits::row_has_bit;
use run::ends::go_on;
use run_word::places::note;

// Begin: the live states before any byte into the mask, place 0, and place 0 as an end if it is one. The refusals are 6 and 9; done gives the total of ends at
// place 0.
pub fn begin(
    image: &[u64],
    mask: &mut [u64],
    place: &mut u64,
    ends: &mut [u32],
) -> Result<usize, Refusal>
    ensures { BeginSays image.now mask.old place.old ends.old
        (answered result (watch mask.new place.new ends.new)) }
{
    let Some(checked) = check(image) else {
        return Err(Refusal::NotAnImage);
    };
    let width = checked.image.sections.width;
    let last = checked.image.sections.states - 1;
    if mask.len() != width {
        return Err(Refusal::NotAMask);
    }
    let first = run::live::begin(&checked.image);
    let total = note(ends, 0, 0, row_has_bit(first.words, last));
    put_words(mask, first.words, width);
    *place = 0;
    Ok(total)
}

// Step: one stretch from the mask and the place as they are lent, whatever mask of the image's states that is. The refusals are 6, 7, 9 and 10; done gives
// the total of ends in the stretch.
pub fn step(
    image: &[u64],
    mask: &mut [u64],
    place: &mut u64,
    stretch: &[u8],
    ends: &mut [u32],
) -> Result<usize, Refusal>
    ensures { StepSays image.now mask.old place.old stretch.now ends.old
        (answered result (watch mask.new place.new ends.new)) }
{
    let Some(checked) = check(image) else {
        return Err(Refusal::NotAnImage);
    };
    if stretch.len() > 65535 {
        return Err(Refusal::TextTooLong);
    }
    if !is_mask(mask, checked.image.sections.states) {
        return Err(Refusal::NotAMask);
    }
    let at = *place;
    let length = stretch.len() as u64;
    if at > 4294967295 - length {
        return Err(Refusal::PlaceTooFar);
    }
    let ran = go_on(&checked.image, mask, at, stretch, ends);
    put_words(mask, ran.words, checked.image.sections.width);
    *place = at + length;
    Ok(ran.total as usize)
}
