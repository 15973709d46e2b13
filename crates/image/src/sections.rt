// "Six sections in this order, each after its count of words", and a seventh for the back edges: each is written from its first mask's place on, with the
// count one word before it.
ghost use Rattle.std.specs.Prelude.{◌≡◌, ◌+◌, ◌-◌, ◌*◌, ◌≤◌, ◌<◌, length as length_of, take};
ghost use Rattle.std.proofs.lemmas.List.Edits.{sets};
ghost use Rattle.model.specs.Image.{join, section};
ghost use Rattle.model.specs.Models.Sections.{letters_at};
ghost use Rattle.image_sections.specs.Sections.{Within};
ghost use Rattle.tokens_masks.specs.Masks.{planes};
ghost use Rattle.tokens_masks.specs.Says.{Laid};
ghost use Rattle.image.specs.Work.{depth_masks, image_words, shape_part};

use crate::letter_masks::{put_letters, put_repeats};
use image_sections::Sections;
use tokens_masks::plane::{BACK_SOURCE, GATHER_BLOCK, LOOP_PLACE, PROPAGATE_BLOCK, SCATTER_BLOCK};
use tokens_masks::{Tape, row_of};

// "A mask is .. in the image its first W words"
// The words, the place and the width are three parameters, here and below: a struct that has the words lent would have to say of each call that the place and
// the width stay as they were.
fn put_row(words: &mut [u64], at: usize, width: usize, row: [u64; 8])
    requires { (width ≤ 8) × (at + width ≤ length_of words.old) }
    ensures { words.new ≡ sets words.old at (take width row) }
{
    words[at..at + width].copy_from_slice(&row[..width]);
}

// Of one depth the masks of `N` planes, from `first` on.
fn put_depth<const N: usize>(
    words: &mut [u64],
    at: usize,
    width: usize,
    depth: usize,
    first: usize,
    masks: &[u64; 936],
)
    requires { (width ≤ 8) × (depth < 9) × (at + N * width ≤ length_of words.old) × (first + N ≤ planes) }
    ensures { words.new ≡ sets words.old at (depth_masks width first N masks.now depth) }
{
    for j in 0..N {
        let row = row_of(masks, depth, first + j);
        put_row(words, at + width * j, width, row);
    }
}

// "shape: m, W, d"
fn put_shape(words: &mut [u64], sections: Sections)
    requires { 4 ≤ length_of words.old }
    ensures { words.new ≡ sets words.old 0 (shape_part sections) }
{
    words[0] = 3;
    words[1] = sections.states as u64;
    words[2] = sections.width as u64;
    words[3] = sections.depth as u64;
}

// The masks of `N` planes, from `first` on, for each of the first depths: block, source and target, or of the back edges source and target.
fn put_tables<const N: usize>(
    words: &mut [u64],
    at: usize,
    width: usize,
    depths: usize,
    first: usize,
    masks: &[u64; 936],
)
    requires { (width ≤ 8) × (depths ≤ 9) × (1 ≤ at) × (at + N * width * depths ≤ length_of words.old) × (first + N ≤ planes) }
    ensures { words.new ≡ sets words.old (at - 1) (section (join depths 0 (depth_masks width first N masks.now))) }
{
    words[at - 1] = (N * width * depths) as u64;
    for k in 0..depths {
        put_depth::<N>(words, at + N * width * k, width, k, first, masks);
    }
}

// The whole image, from what lay out gives for the tape.
pub fn put_image(
    words: &mut [u64],
    tokens: &[u64; 2555],
    tape: Tape,
    sections: Sections,
    masks: &[u64; 936],
)
    requires limits { Within sections sections.length × (sections.letters ≡ letters_at) × (sections.length ≤ length_of words.old) × (tape.length < sections.states) }
    requires laid { Laid tape masks.now }
    ensures { words.new ≡ sets words.old 0 (image_words sections tokens.now tape) }
{
    let letters = sections.letters;
    let width = sections.width;
    let depth = sections.depth;
    let loops = row_of(masks, 0, LOOP_PLACE);
    put_shape(words, sections);
    put_letters(words, letters, width, tokens, tape.length);
    put_repeats(words, letters, sections.repeats, width, loops);
    put_tables::<3>(words, sections.scatter, width, depth, SCATTER_BLOCK, masks);
    put_tables::<3>(words, sections.gather, width, depth, GATHER_BLOCK, masks);
    put_tables::<3>(
        words,
        sections.propagate,
        width,
        depth + 1,
        PROPAGATE_BLOCK,
        masks,
    );
    put_tables::<2>(words, sections.back, width, depth, BACK_SOURCE, masks);
}
