// The latest start of a spelling that stops at a place.
ghost use Rattle.std.specs.Prelude.{◌≡◌, length};
ghost use Rattle.spelling_propose.specs.Work.{Asked, StartSays};

use crate::earlier::{back, ending};
use crate::origins::Origins;
use mask::bits::row_has_bit;

// A set for every 256th place.
pub type Kept = [[u64; 8]; 256];

// Goes back from the end until state 0 leads there, or no state does, and keeps the set of each 256th place.
pub fn find_start(origins: &Origins, text: &[u8], end: usize, kept: &mut Kept) -> Option<usize>
    requires { Asked text.now end }
    ensures { StartSays origins.now.edges.now.image.words.now text.now end kept.new result }
{
    let none = [0u64; 8];
    let mut set = ending(origins);
    for k in (0..end).rev() {
        if row_has_bit(set, 0) {
            return Some(k + 1);
        }
        if set == none {
            return None;
        }
        set = back(origins, set, text[k]);
        if k % 256 == 0 {
            kept[k / 256] = set;
        }
    }
    if row_has_bit(set, 0) { Some(0) } else { None }
}
