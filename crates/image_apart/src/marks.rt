// What the masks show: the states that some of them have, and by these the tape. Anything odd is a bar: the comparison with what is laid out will tell.
ghost use Rattle.std.specs.Prelude.{◌≡◌, suc, ◌+◌, ◌*◌, ◌≤◌, ◌<◌, length as length_of};
ghost use Rattle.model.specs.Models.Apart.{mark_of, repeat_of};
ghost use Rattle.tokens.specs.Kinds.{mark_kind, repeat_kind};
ghost use Rattle.image_apart.specs.Work.{ShownBy, entered_row, entered_words, kind_at, marks_of, or_first, some_row, some_word};

use image_sections::Image;
use mask::bits::row_has_bit;
use tokens::kind::{
    BAR, CLOSE_OPTIONAL, CLOSE_STARRED, CLOSE_UNMARKED, ONCE, OPEN, OPTION, PLUS, STAR,
};
use tokens_masks::Tape;

// The states that some mask has: of the letters, of the repeats, of those that a propagate edge enters, of the gather targets, of the scatter
// sources and of the back sources.
#[derive(Clone, Copy)]
pub struct Marks {
    pub letters: [u64; 8],
    pub loops: [u64; 8],
    pub entered: [u64; 8],
    pub closes: [u64; 8],
    pub opens: [u64; 8],
    pub returns: [u64; 8],
}

// Of `count` words, each `stride` words after the one before, the bits that some have.
fn some_word(words: &[u64], at: usize, stride: usize, count: usize) -> u64
    requires { (stride ≤ 24) × (count ≤ 256) × (at + stride * count < length_of words.now + stride) }
    ensures { result ≡ some_word words.now at stride count }
{
    let mut some = 0u64;
    for k in 0..count {
        some |= words[at + stride * k];
    }
    some
}

// The states of `count` masks, each `stride` words after the one before.
fn some_row(image: &Image, at: usize, stride: usize, count: usize) -> [u64; 8]
    requires { (image.now.sections.width ≤ stride) × (stride ≤ 24) × (count ≤ 256) × (at + stride * count ≤ length_of image.now.words.now) }
    ensures { result ≡ some_row image.now.words.now at stride image.now.sections.width count }
{
    let mut row = [0u64; 8];
    for j in 0..image.sections.width {
        row[j] = some_word(image.words, at + j, stride, count);
    }
    row
}

// The states of the block at a place that are not in the source after it, those that an edge enters, put into a row.
fn or_entered(row: &mut [u64; 8], image: &Image, at: usize)
    requires { at + 2 * image.now.sections.width ≤ length_of image.now.words.now }
    ensures { row.new ≡ or_first row.old (entered_words image.now.words.now at image.now.sections.width) }
{
    let words = image.words;
    let width = image.sections.width;
    for j in 0..width {
        row[j] |= words[at + j] & !words[at + width + j];
    }
}

// The states that a propagate edge enters, at whichever depth.
fn entered_row(image: &Image) -> [u64; 8]
    ensures { result ≡ entered_row image.now.words.now image.now.sections.propagate image.now.sections.width (suc image.now.sections.depth) }
{
    let sections = image.sections;
    let mut row = [0u64; 8];
    for k in 0..sections.depth + 1 {
        or_entered(&mut row, image, sections.propagate + 3 * sections.width * k);
    }
    row
}

// Each row once over all depths: a token then asks one bit of it, however deep the tree is.
pub fn marks_of(image: &Image) -> Marks
    ensures { result ≡ marks_of image.now.words.now image.now.sections }
{
    let sections = image.sections;
    let width = sections.width;
    let depth = sections.depth;
    Marks {
        letters: some_row(image, sections.letters, width, 256),
        loops: some_row(image, sections.repeats, width, 256),
        entered: entered_row(image),
        closes: some_row(image, sections.gather + 2 * width, 3 * width, depth),
        opens: some_row(image, sections.scatter + width, 3 * width, depth),
        returns: some_row(image, sections.back, 2 * width, depth),
    }
}

// A letter's kind: once, `?`, `*` or `+`.
fn letter_kind(skips: bool, loops: bool) -> u8
    ensures { result ≡ repeat_kind (repeat_of «skips» «loops») }
{
    match (skips, loops) {
        (true, true) => STAR,
        (true, false) => OPTION,
        (false, true) => PLUS,
        (false, false) => ONCE,
    }
}

// A close's kind: of a group with `*`, or with an edge over its union, or without one.
fn close_kind(over: bool, returns: bool) -> u8
    ensures { result ≡ mark_kind (mark_of over returns) }
{
    if returns {
        CLOSE_STARRED
    } else if over {
        CLOSE_OPTIONAL
    } else {
        CLOSE_UNMARKED
    }
}

// The token from state i to the next.
fn kind_at(marks: Marks, i: usize) -> u8
    requires { i < 511 }
    ensures { result ≡ kind_at marks i }
{
    if row_has_bit(marks.letters, i + 1) {
        return letter_kind(
            row_has_bit(marks.entered, i + 1),
            row_has_bit(marks.loops, i + 1),
        );
    }
    if row_has_bit(marks.closes, i + 1) {
        return close_kind(
            row_has_bit(marks.entered, i + 1),
            row_has_bit(marks.returns, i),
        );
    }
    if row_has_bit(marks.opens, i) {
        OPEN
    } else {
        BAR
    }
}

pub fn shown_tape(marks: Marks, length: usize) -> Tape
    requires { length ≤ 511 }
    ensures { ShownBy marks length result }
{
    let mut kinds = [0u8; 512];
    for i in 0..length {
        kinds[i] = kind_at(marks, i);
    }
    Tape { kinds, length }
}
