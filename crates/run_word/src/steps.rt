// The passes with the table of work lent: up through the depths with propagate and gather, then down with scatter and propagate. The depth, and whether any
// depth has a chain, stand beside the table and not in one record with it, for a loop may give them as literals.
ghost use Rattle.std.specs.Prelude.{◌≡◌, ◌+◌, ◌*◌, ◌≤◌, [], ◌∷◌, length, if◌then◌else◌, slice_index};
ghost use Rattle.model.specs.Models.Sections.{letter_place, repeat_place};
ghost use Rattle.model.specs.Models.Run.{gather_words, move_words, propagate_words, scatter_words};
ghost use Rattle.model.specs.Models.Words.{wrap_add};
ghost use Rattle.run_word.specs.One.{Fallen, Passed, Risen, word_at};

use crate::passes::{advance, along, gather, scatter};
use image_sections::{letters_at, repeats_at};

// Scatter, gather and propagate with the nine words of depth k.
fn scatter_at(live: u64, k: usize, table: &[u64; 81]) -> u64
    requires { k ≤ 8 }
    ensures { result ∷ [] ≡ scatter_words (word_at table.now (9 * k)) (word_at table.now (9 * k + 1)) (word_at table.now (9 * k + 2)) (live ∷ []) }
{
    scatter(live, table[9 * k], table[9 * k + 1], table[9 * k + 2])
}

fn gather_at(live: u64, k: usize, table: &[u64; 81]) -> u64
    requires { k ≤ 8 }
    ensures { result ∷ [] ≡ gather_words (word_at table.now (9 * k + 3)) (word_at table.now (9 * k + 4)) (word_at table.now (9 * k + 5)) (live ∷ []) }
{
    gather(live, table[9 * k + 3], table[9 * k + 4], table[9 * k + 5])
}

fn along_at(live: u64, k: usize, any: bool, table: &[u64; 81]) -> u64
    requires { k ≤ 8 }
    ensures { result ∷ [] ≡ propagate_words ((if any then slice_index table.now (9 * k + 6) else 0) ∷ [])
        (wrap_add (slice_index table.now (9 * k + 7)) 1 ∷ []) (word_at table.now (9 * k + 8)) (live ∷ []) }
{
    along(
        live,
        any,
        table[9 * k + 6],
        table[9 * k + 7],
        table[9 * k + 8],
    )
}

// Up from the deepest alternatives: along a depth's chains before its ends go up one depth.
fn rise(live: u64, depth: usize, any: bool, table: &[u64; 81]) -> u64
    requires { depth ≤ 8 }
    ensures { Risen any table.now depth live result }
{
    let mut r = live;
    for k in (0..depth).rev() {
        let moved = along_at(r, k + 1, any, table);
        r = gather_at(moved, k + 1, table);
    }
    r
}

// Down again, rising from depth 1 to d: inner alternatives start only once the outer ones have.
fn fall(live: u64, depth: usize, any: bool, table: &[u64; 81]) -> u64
    requires { depth ≤ 8 }
    ensures { Fallen any table.now depth live result }
{
    let mut r = live;
    for k in 0..depth {
        let started = scatter_at(r, k + 1, table);
        r = along_at(started, k + 1, any, table);
    }
    r
}

// Up and down: all that the live states reach by edges without a letter. Unfolded wherever it is called, so that the compiler knows the depth where that
// is a literal.
#[inline(always)]
pub fn pass(live: u64, depth: usize, any: bool, table: &[u64; 81]) -> u64
    requires { depth ≤ 8 }
    ensures { Passed any (slice_index table.now 6) (slice_index table.now 7) (slice_index table.now 8) table.now depth live result }
{
    let up = rise(live, depth, any, table);
    let level = along(up, any, table[6], table[7], table[8]);
    fall(level, depth, any, table)
}

// The live states moved by a byte, and state 0.
pub fn moved(live: u64, image: &[u64], byte: u8) -> u64
    requires { repeat_place 1 256 ≤ length image.now }
    ensures { result ∷ [] ≡ move_words (word_at image.now (letter_place 1 byte)) (word_at image.now (repeat_place 1 byte)) (1 ∷ []) (live ∷ []) }
{
    let letters = image[letters_at(1, byte)];
    let repeats = image[repeats_at(1, byte)];
    advance(live, letters, repeats)
}
