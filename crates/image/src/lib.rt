// The image, written: document 01, "The image". A tree comes as its tokens, five words for each, is laid out (crate tokens_masks), and goes
// into the words lent, section after section. `tape` has the tape, `letter_masks` the masks of bytes, `sections` the writing.

#![tactic(auto)]

mod letter_masks;
mod sections;
mod tape;

ghost use Rattle.answers.specs.Answers.{answered};
ghost use Rattle.image.specs.Says.{OfRule, StoreSays};

use crate::sections::put_image;
use crate::tape::tape_of;
use answers::Refusal;
use image_sections::sections_of;
use tokens_masks::lay_out;

// The image of a tree, from its tokens: build's answer from number 4 on. Nothing is written before it is known that all of it will be.
pub fn store(tokens: [u64; 2555], length: usize, words: &mut [u64]) -> Result<usize, Refusal>
    requires { OfRule tokens length }
    ensures { StoreSays tokens length words.old (answered result words.new) }
{
    let tape = tape_of(&tokens, length);
    let mut masks = [0u64; 936];
    let depth = lay_out(tape, &mut masks).ok_or(Refusal::TooDeep)?;
    let sections = sections_of(length + 1, depth);
    if words.len() < sections.length {
        return Err(Refusal::NoRoomForImage);
    }
    put_image(words, &tokens, tape, sections, &masks);
    Ok(sections.length)
}
