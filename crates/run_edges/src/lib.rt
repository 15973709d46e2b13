// Single edges (document 01, "States and edges"): what a state reaches without a letter, what a byte enters from a set of states, and what it leaves into
// one. Spellings go forward and back along them.

#![tactic(auto)]

ghost use Rattle.std.specs.Prelude.{◌≡◌};
ghost use Rattle.run_edges.specs.Reach.{EnterSays, enter_words, LeaveSays, leave_words, letters_of, ReachSays, reach_words, repeats_of, unshift_words, WorkOf};

use image_sections::{Image, letters_at, repeats_at};
use mask::Mask;
use mask::bits::with_bit;
use mask::logic::{and, or};
use run::rounds::close;
use run::rows::row_at;
use run::table::Work;
use run_moves::advance;

// Each state back by one.
fn unshift(a: [u64; 8]) -> [u64; 8]
    ensures { result ≡ unshift_words a }
{
    let mut r = a;
    for i in 0..7 {
        r[i] = (a[i] >> 1) | (a[i + 1] << 63);
    }
    r[7] = a[7] >> 1;
    r
}

// The masks of a byte. Two functions and not one: the place's function and its contract as arguments would be longer than either body.
fn letters(image: &Image, byte: u8) -> [u64; 8]
    ensures { result ≡ letters_of image.now.words.now byte }
{
    let width = image.sections.width;
    row_at(image.words, letters_at(width, byte), width)
}

fn repeats(image: &Image, byte: u8) -> [u64; 8]
    ensures { result ≡ repeats_of image.now.words.now byte }
{
    let width = image.sections.width;
    row_at(image.words, repeats_at(width, byte), width)
}

// The states that a byte enters from those of a mask.
pub fn enter(image: &Image, live: Mask, byte: u8) -> Mask
    ensures computed { result.words ≡ enter_words image.now.words.now byte live.words }
    ensures entered { EnterSays image.now.words.now byte live.words result.words }
{
    let l = letters(image, byte);
    let p = repeats(image, byte);
    let none = mask::none();
    advance(live, Mask { words: l }, Mask { words: p }, none, 8)
}

// The states that a byte leaves into those of a mask.
pub fn leave(image: &Image, set: Mask, byte: u8) -> Mask
    ensures computed { result.words ≡ leave_words image.now.words.now byte set.words }
    ensures left { LeaveSays image.now.words.now byte set.words result.words }
{
    let l = letters(image, byte);
    let p = repeats(image, byte);
    let taken = and(set, Mask { words: l }, 8);
    let row = taken.words;
    let back = unshift(row);
    let stayed = and(set, Mask { words: p }, 8);
    or(Mask { words: back }, stayed, 8)
}

// An image with the masks of work made once from it, to go along many edges.
#[derive(Clone, Copy)]
pub struct Edges<'a> {
    pub image: Image<'a>,
    pub masks: Work,
    ghost work: { WorkOf image.words.now masks.table },
    ghost deep: { masks.depth ≡ image.sections.depth },
}

impl<'a> Edges<'a> {
    // Of an image, the masks made once.
    pub fn of(image: Image<'a>) -> Edges<'a>
        ensures { result.image ≡ image.entry }
    {
        Edges {
            image,
            masks: Work::of(&image),
        }
    }

    // All that a state reaches without a letter.
    pub fn reach(&self, q: usize) -> Mask
        ensures computed { result.words ≡ reach_words self.now.image.words.now q }
        ensures reached { ReachSays self.now.image.words.now q result.words }
    {
        let one = with_bit(mask::none(), q);
        close(one, 8, &self.masks)
    }

    // The functions `enter` and `leave`, beside `reach`.
    pub fn enter(&self, live: Mask, byte: u8) -> Mask
        ensures computed { result.words ≡ enter_words self.now.image.words.now byte live.words }
        ensures entered { EnterSays self.now.image.words.now byte live.words result.words }
    {
        enter(&self.image, live, byte)
    }

    pub fn leave(&self, set: Mask, byte: u8) -> Mask
        ensures computed { result.words ≡ leave_words self.now.image.words.now byte set.words }
        ensures left { LeaveSays self.now.image.words.now byte set.words result.words }
    {
        leave(&self.image, set, byte)
    }
}
