// The masks of work: from the image's words series by series, and then laid side by side, so that one index steps through all that a depth needs; and the
// masks of the back edges after them.
ghost use Rattle.std.specs.Prelude.{◌≡◌, ◌+◌, ◌*◌, ◌≤◌, ◌<◌, length};
ghost use Rattle.run.specs.Work.{Lessened, Put, PutBacks, series_at, SeriesOf, Sources, Tabled, Whole};

use crate::rows::row_at;
use image_sections::Image;
use mask::Mask;
use mask::logic::or;
use run_moves::less_one;

// The masks of work, and how deep the rule is: of the table's masks those of the depths up to it.
#[derive(Clone, Copy)]
pub struct Work {
    pub table: Table,
    pub depth: usize,
    ghost deep: { depth ≤ 8 },
}

// A series: one of the three masks of a section, block, source or target, for each of the depths 0 to 8.
pub type Series = [[u64; 8]; 9];

// Nine series, nine masks to a depth; then the source and the target of the back edges of depths 0 to 7.
pub type Table = [[u64; 8]; 97];

// Mask `which` of the three of each depth below count, from a section's first word on.
fn series_at(image: &[u64], at: usize, width: usize, count: usize, which: usize) -> Series
    requires { (width ≤ 8) × (count ≤ 9) × (which < 3) × (at + width * (3 * count) ≤ length image.now) }
    ensures { result ≡ series_at image.now at width count which }
{
    let none = [0u64; 8];
    let mut r = [none; 9];
    for k in 0..count {
        r[k] = row_at(image, at + width * (3 * k + which), width);
    }
    r
}

// Each mask less one.
fn less_ones(source: Series) -> Series
    ensures { Lessened source result }
{
    source.map(less_one)
}

// Series j of the nine: scatter's three, gather's three, propagate's three with the source less one.
fn series(image: &Image, j: usize) -> Series
    requires { j < 9 }
    ensures { SeriesOf image.now.words.now image.now.sections.width image.now.sections.depth j result }
{
    let width = image.sections.width;
    let depth = image.sections.depth;
    if j < 3 {
        return series_at(image.words, image.sections.scatter, width, depth, j);
    }
    if j < 6 {
        return series_at(image.words, image.sections.gather, width, depth, j - 3);
    }
    let masks = series_at(
        image.words,
        image.sections.propagate,
        width,
        depth + 1,
        j - 6,
    );
    if j == 7 {
        return less_ones(masks);
    }
    masks
}

// The masks of series j into their places.
fn put_series(table: &mut Table, j: usize, masks: Series)
    requires { (j < 9) × (length table.old ≡ 97) }
    ensures { Put j masks table.old table.new }
{
    for (k, row) in masks.iter().enumerate() {
        table[9 * k + j] = *row;
    }
}

// The masks of the back edges into theirs.
fn put_backs(table: &mut Table, image: &Image)
    requires { length table.old ≡ 97 }
    ensures { PutBacks (2 * image.now.sections.depth) image.now.words.now image.now.sections.width image.now.sections.depth table.old table.new }
{
    let at = image.sections.back;
    let width = image.sections.width;
    let depth = image.sections.depth;
    for i in 0..2 * depth {
        table[81 + i] = row_at(image.words, at + width * i, width);
    }
}

// All sources of the back edges.
pub fn all_sources(work: &Work) -> Mask
    requires { Whole work.now.table work.now.depth }
    ensures { Sources work.now.table work.now.depth result.words }
{
    let mut r = mask::none();
    for k in 0..work.depth {
        r = or(
            r,
            Mask {
                words: work.table[81 + 2 * k],
            },
            8,
        );
    }
    r
}

// All masks of an image into theirs.
fn put_masks(table: &mut Table, image: &Image)
    requires { length table.old ≡ 97 }
    ensures { Tabled image.now.words.now image.now.sections.width image.now.sections.depth table.new }
{
    for j in 0..9 {
        put_series(table, j, series(image, j));
    }
    put_backs(table, image);
}

impl Work {
    // Unfolded where it is called: as a call's result the table would stand on the stack once more.
    #[inline(always)]
    pub fn of(image: &Image) -> Work
        ensures deep { result.depth ≡ image.now.sections.depth }
        ensures tabled { Tabled image.now.words.now image.now.sections.width image.now.sections.depth result.table }
    {
        let none = [0u64; 8];
        let mut r = Work {
            table: [none; 97],
            depth: image.sections.depth,
        };
        put_masks(&mut r.table, image);
        r
    }
}
