// Two rounds (document 02, repeated groups): the passes, and once more from the targets of the back edges that they reach. Only the first n words of a
// mask count.
ghost use Rattle.std.specs.Prelude.{[], ◌≡◌, ◌+◌, ◌*◌, ◌≤◌, ◌<◌, get_or, take};
ghost use Rattle.model.specs.Models.Run.{close_words, returns_words, return_words, second_round};
ghost use Rattle.model.specs.Models.Words.{or_words};
ghost use Rattle.run.specs.Work.{pass_masks, Sources, Whole};

use crate::steps::pass;
use crate::table::{Table, Work};
use mask::Mask;
use run_moves::{come_back, meet, same};

// With what the back edges of depth k add.
#[inline(always)]
fn return_at(live: Mask, first: Mask, k: usize, n: usize, table: &Table) -> Mask
    requires { k < 8 }
    ensures { take n result.words ≡ or_words (take n live.words)
        (return_words (take n (get_or table.now (81 + 2 * k) [])) (take n (get_or table.now (82 + 2 * k) [])) (take n first.words)) }
{
    let source = table[81 + 2 * k];
    let target = table[82 + 2 * k];
    come_back(
        live,
        first,
        Mask { words: source },
        Mask { words: target },
        n,
    )
}

// What the back edges of all depths add to what the passes gave.
#[inline(always)]
fn returns(first: Mask, n: usize, work: &Work) -> Mask
    ensures { take n result.words ≡ returns_words (pass_masks n work.now.table) work.now.depth (take n first.words) (take n first.words) }
{
    let mut r = first;
    for k in (0..work.depth).rev() {
        r = return_at(r, first, k, n, &work.table);
    }
    r
}

// The same where all sources are at hand: mostly none of them is live, and nothing is added.
#[inline(always)]
pub fn come_round(first: Mask, n: usize, work: &Work, sources: Mask) -> Mask
    requires { Whole work.now.table work.now.depth × Sources work.now.table work.now.depth sources.words }
    ensures { take n result.words ≡ returns_words (pass_masks n work.now.table) work.now.depth (take n first.words) (take n first.words) }
{
    if meet(sources, first, n) {
        return returns(first, n, work);
    }
    first
}

// The second round, made only where the back edges add something.
fn again(first: Mask, n: usize, work: &Work) -> Mask
    ensures { take n result.words ≡ second_round (pass_masks n work.now.table) work.now.depth (take n first.words) }
{
    let more = returns(first, n, work);
    if same(more, first, n) {
        return first;
    }
    pass(more, n, work)
}

// Both rounds: all that the live states reach by edges without a letter.
pub fn close(live: Mask, n: usize, work: &Work) -> Mask
    ensures { take n result.words ≡ close_words (pass_masks n work.now.table) work.now.depth (take n live.words) }
{
    let first = pass(live, n, work);
    again(first, n, work)
}
