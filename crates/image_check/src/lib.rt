// Whether any words at all are the image of a tree within 512 states and depth 8 (document 01, number 6). The shape's own numbers are trusted for
// nothing before they are checked; the tape is taken from the masks (the crate `image_apart` does both), laid out, and what is laid out is compared with
// the words (`compare`). What was compared is what is run: nothing is copied and then trusted.

#![tactic(auto)]

mod compare;

ghost use Rattle.image_check.specs.Says.{CheckSays};

use crate::compare::agrees;
use image_apart::{Apart, take_apart};
use image_sections::Image;
use tokens_masks::{Tape, lay_out};

// An image, and the tape of the tree whose image the words are.
#[derive(Clone, Copy)]
pub struct Checked<'a> {
    pub image: Image<'a>,
    pub tape: Tape,
}

// The check that every call makes which uses an image; none where the words are no image.
pub fn check(words: &[u64]) -> Option<Checked>
    ensures { CheckSays words.now result }
{
    let Apart {
        image,
        letters,
        tape,
    } = take_apart(words)?;
    let mut masks = [0u64; 936];
    if lay_out(tape, &mut masks)? != image.sections.depth {
        return None;
    }
    if !agrees(&image, letters, &masks) {
        return None;
    }
    Some(Checked { image, tape })
}
