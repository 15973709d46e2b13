// The passes with the table of work lent: up through the depths with propagate and gather, then down with scatter and propagate, each depth once.
// Only the first n words of a mask count.
ghost use Rattle.std.specs.Prelude.{true, [], ◌≡◌, ◌+◌, ◌*◌, ◌≤◌, get_or, length, take};
ghost use Rattle.model.specs.Models.Sections.{letter_place, repeat_place};
ghost use Rattle.model.specs.Models.Run.{fall_words, gather_words, move_words, pass_words, propagate_words, rise_words, scatter_words};
ghost use Rattle.run_moves.specs.Less.{plus_words, start_words};
ghost use Rattle.run.specs.Work.{pass_masks, row_at};

use crate::rows::row_at;
use crate::table::{Table, Work};
use image_sections::{letters_at, repeats_at};
use mask::Mask;
use run_moves::{advance, gather, propagate, scatter, start};

// Scatter, gather and propagate with the nine masks of depth k.
#[inline(always)]
fn scatter_at(live: Mask, k: usize, n: usize, table: &Table) -> Mask
    requires { k ≤ 8 }
    ensures { take n result.words ≡ scatter_words (take n (get_or table.now (9 * k) [])) (take n (get_or table.now (9 * k + 1) []))
        (take n (get_or table.now (9 * k + 2) [])) (take n live.words) }
{
    let block = table[9 * k];
    let source = table[9 * k + 1];
    let target = table[9 * k + 2];
    scatter(
        live,
        Mask { words: block },
        Mask { words: source },
        Mask { words: target },
        n,
    )
}

#[inline(always)]
fn gather_at(live: Mask, k: usize, n: usize, table: &Table) -> Mask
    requires { k ≤ 8 }
    ensures { take n result.words ≡ gather_words (take n (get_or table.now (9 * k + 3) [])) (take n (get_or table.now (9 * k + 4) []))
        (take n (get_or table.now (9 * k + 5) [])) (take n live.words) }
{
    let block = table[9 * k + 3];
    let source = table[9 * k + 4];
    let target = table[9 * k + 5];
    gather(
        live,
        Mask { words: block },
        Mask { words: source },
        Mask { words: target },
        n,
    )
}

#[inline(always)]
fn propagate_at(live: Mask, k: usize, n: usize, table: &Table) -> Mask
    requires { k ≤ 8 }
    ensures { take n result.words ≡ propagate_words (take n (get_or table.now (9 * k + 6) [])) (take n (plus_words (get_or table.now (9 * k + 7) []) true))
        (take n (get_or table.now (9 * k + 8) [])) (take n live.words) }
{
    let block = table[9 * k + 6];
    let below = table[9 * k + 7];
    let target = table[9 * k + 8];
    propagate(
        live,
        Mask { words: block },
        Mask { words: below },
        Mask { words: target },
        n,
    )
}

// Up from the deepest alternatives to the rule's own sequence: along a depth's chains before its ends go up one depth.
#[inline(always)]
pub fn rise(live: Mask, n: usize, work: &Work) -> Mask
    ensures { take n result.words ≡ rise_words (pass_masks n work.now.table) work.now.depth (take n live.words) }
{
    let mut r = live;
    for k in (0..work.depth).rev() {
        let along = propagate_at(r, k + 1, n, &work.table);
        r = gather_at(along, k, n, &work.table);
    }
    propagate_at(r, 0, n, &work.table)
}

// Down again, rising from depth 1 to d: inner alternatives start only once the outer ones have.
#[inline(always)]
pub fn fall(live: Mask, n: usize, work: &Work) -> Mask
    ensures { take n result.words ≡ fall_words (pass_masks n work.now.table) work.now.depth 0 (take n live.words) }
{
    let mut r = live;
    for k in 0..work.depth {
        let started = scatter_at(r, k, n, &work.table);
        r = propagate_at(started, k + 1, n, &work.table);
    }
    r
}

// Up and down: all that the live states reach by edges without a letter.
#[inline(always)]
pub fn pass(live: Mask, n: usize, work: &Work) -> Mask
    ensures { take n result.words ≡ pass_words (pass_masks n work.now.table) work.now.depth (take n live.words) }
{
    let up = rise(live, n, work);
    fall(up, n, work)
}

// The live states moved by a byte, and state 0; the byte's masks are read where they lie.
#[inline(always)]
pub fn moved(live: Mask, image: &[u64], width: usize, n: usize, byte: u8) -> Mask
    requires { (width ≤ 8) × (repeat_place width 256 ≤ length image.now) }
    ensures { take n result.words ≡ move_words (take n (row_at image.now (letter_place width byte) width))
        (take n (row_at image.now (repeat_place width byte) width)) (take n start_words) (take n live.words) }
{
    let letters = row_at(image, letters_at(width, byte), width);
    let repeats = row_at(image, repeats_at(width, byte), width);
    let first = start();
    advance(
        live,
        Mask { words: letters },
        Mask { words: repeats },
        first,
        n,
    )
}
