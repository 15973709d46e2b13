// Planes: for each depth one mask of each, by these numbers, and where they lie in the words. Letter and loop places have depth 0 alone.
// No enum: they are places of rows, and the planes of a section are counted on from its first (`mark_edge`; the crates `image` and `image_check`).
ghost use Rattle.std.specs.Prelude.{◌≡◌, ◌<◌};
ghost use Rattle.tokens_masks.specs.Masks.{place_of, planes};

pub const LETTER_PLACE: usize = 0;

pub const LOOP_PLACE: usize = 1;

pub const SCATTER_BLOCK: usize = 2;

pub const SCATTER_SOURCE: usize = 3;

pub const SCATTER_TARGET: usize = 4;

pub const GATHER_BLOCK: usize = 5;

pub const GATHER_SOURCE: usize = 6;

pub const GATHER_TARGET: usize = 7;

// Propagate's block, and after it source and target; while the tokens are marked, these are the states that edges leave and those that they enter.
pub const PROPAGATE_BLOCK: usize = 8;

pub const LEAVING: usize = 9;

pub const BACK_SOURCE: usize = 11;

pub const BACK_TARGET: usize = 12;

// How many there are.
const PLANES: usize = 13;

// The place of a word of the mask of a depth and a plane.
pub fn place_of(depth: usize, plane: usize, word: usize) -> usize
    requires { (depth < 9) × (plane < planes) × (word < 8) }
    ensures { result ≡ place_of depth plane word }
{
    8 * (PLANES * depth + plane) + word
}
