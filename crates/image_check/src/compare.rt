// "The first word that differs ends the comparison, whichever section it lies in."
ghost use Rattle.std.specs.Prelude.{◌≡◌, ◌+◌, ◌*◌, ◌≤◌, ◌<◌, length as length_of};
ghost use Rattle.tokens_masks.specs.Masks.{planes};
ghost use Rattle.image_check.specs.Work.{same_laid, same_masks, same_repeats};

use image_sections::Image;
use mask::bits::same_rows;
use tokens_masks::plane::{
    BACK_SOURCE, GATHER_BLOCK, LETTER_PLACE, LOOP_PLACE, PROPAGATE_BLOCK, SCATTER_BLOCK,
};
use tokens_masks::row_of;

// Whether each byte's mask of the repeats is its mask of the letters at the loops' places.
fn same_repeats(image: &Image, loops: [u64; 8]) -> bool
    ensures { result ≡ same_repeats image.now.words.now image.now.sections.letters image.now.sections.repeats image.now.sections.width loops }
{
    // By bytes and words, in the form of `same_masks`.
    let words = image.words;
    let width = image.sections.width;
    let mut same = true;
    'search: for byte in 0..256 {
        let letters = image.sections.letters + width * byte;
        let repeats = image.sections.repeats + width * byte;
        for j in 0..width {
            if words[repeats + j] != words[letters + j] & loops[j] {
                same = false;
                break 'search;
            }
        }
    }
    same
}

// Whether the words from a place on are, for each of the first depths, the masks laid out of `N` planes, from `first` on.
fn same_masks<const N: usize>(
    image: &Image,
    at: usize,
    depths: usize,
    first: usize,
    masks: &[u64; 936],
) -> bool
    requires { (depths ≤ 9) × (at + N * image.now.sections.width * depths ≤ length_of image.now.words.now) × (first + N ≤ planes) }
    ensures { result ≡ same_masks image.now.words.now at image.now.sections.width depths first N masks.now }
{
    // Document 01, "Required forms by place": nested loops over depths, masks and words, left from inside by a label at the first difference.
    let words = image.words;
    let width = image.sections.width;
    let mut same = true;
    'search: for k in 0..depths {
        for which in 0..N {
            let from = at + (N * k + which) * width;
            let row = row_of(masks, k, first + which);
            for j in 0..width {
                if words[from + j] != row[j] {
                    same = false;
                    break 'search;
                }
            }
        }
    }
    same
}

// Whether the words are what is laid out in the masks: `letters` are the states that some letter's mask has.
pub fn agrees(image: &Image, letters: [u64; 8], masks: &[u64; 936]) -> bool
    ensures { result ≡ same_laid image.now.words.now image.now.sections letters masks.now }
{
    let sections = image.sections;
    let depth = sections.depth;
    same_rows(letters, row_of(masks, 0, LETTER_PLACE))
        && same_repeats(image, row_of(masks, 0, LOOP_PLACE))
        && same_masks::<3>(image, sections.scatter, depth, SCATTER_BLOCK, masks)
        && same_masks::<3>(image, sections.gather, depth, GATHER_BLOCK, masks)
        && same_masks::<3>(image, sections.propagate, depth + 1, PROPAGATE_BLOCK, masks)
        && same_masks::<2>(image, sections.back, depth, BACK_SOURCE, masks)
}
