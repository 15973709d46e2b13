// The live states before any byte.
ghost use Rattle.std.specs.Prelude.{◌≡◌, take};
ghost use Rattle.model.specs.Models.Run.{close_words};
ghost use Rattle.run.specs.Says.{BeginSays};
ghost use Rattle.run.specs.Work.{masks_of};

use crate::rounds::close;
use crate::table::Work;
use image_sections::Image;
use mask::Mask;
use run_moves::start;

// Both rounds with the table of the image, on all eight words. Not unfolded: in a call that checks its image too, the table would lie on the stack meanwhile.
#[inline(never)]
fn close_of(image: &Image, live: Mask) -> Mask
    ensures { take 8 result.words ≡ take 8 (close_words (masks_of image.now.words.now) image.now.sections.depth live.words) }
{
    let masks = Work::of(image);
    close(live, 8, &masks)
}

// "The live states before any byte"
pub fn begin(image: &Image) -> Mask
    ensures { BeginSays image.now.words.now result.words }
{
    let first = start();
    close_of(image, first)
}
