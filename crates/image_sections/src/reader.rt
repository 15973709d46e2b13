// The header of any words: their shape, the length that it asks, and the count of each section.
ghost use Rattle.std.specs.Prelude.{◌≡◌, length as length_of};
ghost use Rattle.image_sections.specs.Header.{counts_fit, header_fits, header_if, shape_fits};
ghost use Rattle.image_sections.specs.Sections.{mask_words, Within};

use crate::{Sections, sections_of};

// "Six sections .. each after its count of words", and a seventh: the counts after the shape's, where the length is right.
fn counts_fit(words: &[u64], sections: Sections) -> bool
    requires { Within sections (length_of words.now) }
    ensures { result ≡ counts_fit words.now sections }
{
    let bytes = 256 * sections.width;
    let unions = 3 * sections.width * sections.depth;
    words[sections.letters - 1] == bytes as u64
        && words[sections.repeats - 1] == bytes as u64
        && words[sections.scatter - 1] == unions as u64
        && words[sections.gather - 1] == unions as u64
        && words[sections.propagate - 1] == (unions + 3 * sections.width) as u64
        && words[sections.back - 1] == (2 * sections.width * sections.depth) as u64
}

// The shape, before the length is known to fit it.
fn read_shape(words: &[u64]) -> Option<Sections>
    ensures { result ≡ header_if (shape_fits words.now) words.now }
{
    if words.len() < 4 {
        return None;
    }
    if words[0] != 3 {
        return None;
    }
    let states = words[1];
    let width = words[2];
    let depth = words[3];
    if states < 2 || states > 512 {
        return None;
    }
    if width != states.div_ceil(64) {
        return None;
    }
    if depth > 8 {
        return None;
    }
    let sections = sections_of(states as usize, depth as usize);
    Some(sections)
}

// The places that the words say they have; none where they have no header of an image.
pub fn read_header(words: &[u64]) -> Option<Sections>
    ensures { result ≡ header_if (header_fits words.now) words.now }
{
    let sections = read_shape(words)?;
    if words.len() != sections.length {
        return None;
    }
    if !counts_fit(words, sections) {
        return None;
    }
    Some(sections)
}

// How many words a mask has, as the shape of any words says it: at most eight, and none where there is no shape.
pub fn mask_words(words: &[u64]) -> usize
    ensures { result ≡ mask_words words.now }
{
    if words.len() < 3 {
        return 0;
    }
    words[2].min(8) as usize
}
