// Where the words of an image lie (document 01, "The image"): from the numbers of its shape the place of each section, in one record by value; the places of a
// byte's masks; and the header of any words at all, read in one place. Only the shape's own words are written elsewhere, by `image`.

#![tactic(auto)]

mod image;
mod reader;

ghost use Rattle.std.specs.Prelude.{◌≡◌, ◌≤◌};
ghost use Rattle.model.specs.Models.Sections.{letter_place, repeat_place};
ghost use Rattle.image_sections.specs.Sections.{sections_of};

pub use image::Image;
pub use reader::{mask_words, read_header};

// The states, the words to a mask and the depth; of each section the place of its first mask, one word after its count; and how many words there are.
#[derive(Clone, Copy)]
pub struct Sections {
    pub states: usize,
    pub width: usize,
    pub depth: usize,
    pub letters: usize,
    pub repeats: usize,
    pub scatter: usize,
    pub gather: usize,
    pub propagate: usize,
    pub back: usize,
    pub length: usize,
}

// "W is m/64 rounded up", and section after section, each after its count.
pub fn sections_of(states: usize, depth: usize) -> Sections
    requires { (states ≤ 512) × (depth ≤ 8) }
    ensures { result ≡ sections_of states depth }
{
    let width = states.div_ceil(64);
    let bytes = 256 * width;
    let unions = 3 * width * depth;
    let repeats = 6 + bytes;
    let scatter = repeats + bytes + 1;
    let gather = scatter + unions + 1;
    let propagate = gather + unions + 1;
    let back = propagate + 3 * width * (depth + 1) + 1;
    Sections {
        states,
        width,
        depth,
        letters: 5,
        repeats,
        scatter,
        gather,
        propagate,
        back,
        length: back + 2 * width * depth,
    }
}

// The masks of a byte: of its letters, and of its repeats.
pub fn letters_at(width: usize, byte: u8) -> usize
    requires { width ≤ 8 }
    ensures { result ≡ letter_place width byte }
{
    5 + width * byte as usize
}

pub fn repeats_at(width: usize, byte: u8) -> usize
    requires { width ≤ 8 }
    ensures { result ≡ repeat_place width byte }
{
    6 + 256 * width + width * byte as usize
}
