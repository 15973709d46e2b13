// Take apart: of any words at all their header, and, where they have one, the tape that the masks show (`marks`). Nothing is read at a place before the
// length is known to reach it.

#![tactic(auto)]

mod marks;

ghost use Rattle.image_apart.specs.Says.{ApartSays};

use crate::marks::{marks_of, shown_tape};
use image_sections::{Image, read_header};
use tokens_masks::Tape;

// The words with the places of their sections; the states that some letter's mask has; and the tape.
#[derive(Clone, Copy)]
pub struct Apart<'a> {
    pub image: Image<'a>,
    pub letters: [u64; 8],
    pub tape: Tape,
}

// None where the words have no header of an image.
pub fn take_apart(words: &[u64]) -> Option<Apart>
    ensures { ApartSays words.now result }
{
    let sections = read_header(words)?;
    let image = Image { words, sections };
    let marks = marks_of(&image);
    let tape = shown_tape(marks, sections.states - 1);
    let letters = marks.letters;
    Some(Apart {
        image,
        letters,
        tape,
    })
}
