// The sets of earlier places, which go back from an end place.
ghost use Rattle.spelling_propose.specs.Work.{BackSays, EndingSays};

use crate::origins::{Origins, into};
use crate::sets::with_state;
use mask::Mask;

// The states that reach the accepting state without a letter.
pub fn ending(origins: &Origins) -> [u64; 8]
    ensures { EndingSays origins.now.edges.now.image.words.now result }
{
    let none = [0u64; 8];
    let last = origins.edges.image.sections.states - 1;
    into(origins.rows, with_state(none, last))
}

// One byte back.
pub fn back(origins: &Origins, set: [u64; 8], byte: u8) -> [u64; 8]
    ensures { BackSays origins.now.edges.now.image.words.now set byte result }
{
    let left = origins.edges.leave(Mask { words: set }, byte);
    into(origins.rows, left.words)
}
