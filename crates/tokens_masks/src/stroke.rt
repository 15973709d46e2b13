// The strokes of one token: each a run of states in the mask of one plane and depth, most often a single state.
// The state and the depth are two numbers: a struct of both, made anew for each kind of token, takes more lines than the four clauses that it saves.
ghost use Rattle.std.specs.Prelude.{◌≡◌, ◌<◌};
ghost use Rattle.model.specs.Models.LayOut.{bar_strokes, close_strokes, letter_strokes, open_strokes};
ghost use Rattle.tokens_masks.specs.Masks.{MarkSays, paint};
ghost use Rattle.tokens.specs.Scans.{frame_of, ReadyAt};
ghost use Rattle.tokens.specs.Tokens.{mark_of, repeat_of};

use crate::masks::{mark, mark_edge, mark_run};
use crate::plane::{
    BACK_SOURCE, GATHER_BLOCK, GATHER_SOURCE, GATHER_TARGET, LEAVING, LETTER_PLACE, LOOP_PLACE,
    SCATTER_BLOCK, SCATTER_SOURCE, SCATTER_TARGET,
};
use tokens::token::{Mark, Repeat, Token, can_loop, can_omit, can_return, can_skip};
use tokens::{Frame, Scan, first_end_of};

// A letter from `position` at `depth`: `*` and `+` have a loop, `?` and `*` a propagate edge over it.
fn mark_letter(masks: &mut [u64; 936], repeat: Repeat, position: usize, depth: usize)
    requires { (position < 511) × (depth < 9) }
    ensures { masks.new ≡ paint (letter_strokes (repeat_of repeat) position depth) masks.old }
{
    mark(masks, LETTER_PLACE, 0, position + 1);
    if can_loop(repeat) {
        mark(masks, LOOP_PLACE, 0, position + 1);
    }
    if can_skip(repeat) {
        mark_edge(masks, LEAVING, depth, position, position + 1);
    }
}

// The open of a union that starts in `position` at `depth`: its first alternative starts in the next state.
fn mark_open(masks: &mut [u64; 936], position: usize, depth: usize)
    requires { (position < 511) × (depth < 9) }
    ensures { masks.new ≡ paint (open_strokes position depth) masks.old }
{
    mark(masks, SCATTER_SOURCE, depth, position);
    mark(masks, SCATTER_TARGET, depth, position + 1);
}

// A bar after the alternative that ends in `position`, of a union at `depth`: the next alternative starts in the next state.
fn mark_bar(masks: &mut [u64; 936], position: usize, depth: usize)
    requires { (position < 511) × (depth < 9) }
    ensures { masks.new ≡ paint (bar_strokes position depth) masks.old }
{
    mark(masks, SCATTER_TARGET, depth, position + 1);
    mark(masks, GATHER_SOURCE, depth, position);
}

// The close after the alternative that ends in `position`, of a union at `depth`, which ends in the next state; its mark shows whether an
// edge leads over the union, and whether one leads back from its body's end to its body's start.
fn mark_close(masks: &mut [u64; 936], frame: Frame, position: usize, depth: usize, shown: Mark)
    requires { (position < 511) × (depth < 9) × (frame.alternative < 511) × (frame.start < 511) }
    ensures { masks.new ≡ paint (close_strokes (mark_of shown) (frame_of frame) position depth) masks.old }
{
    mark(masks, SCATTER_BLOCK, depth, frame.alternative + 1);
    let first_end = first_end_of(frame, position);
    mark_run(masks, GATHER_BLOCK, depth, first_end, position + 1);
    mark(masks, GATHER_SOURCE, depth, position);
    mark(masks, GATHER_TARGET, depth, position + 1);
    if can_omit(shown) {
        mark_edge(masks, LEAVING, depth, frame.start, position + 1);
    }
    if can_return(shown) {
        mark_edge(masks, BACK_SOURCE, depth, position, frame.start + 1);
    }
}

// What a token that fits marks.
pub fn mark_token(masks: &mut [u64; 936], scan: Scan, frame: Frame, token: Token)
    requires { ReadyAt scan frame token }
    ensures { MarkSays scan frame token masks.old masks.new }
{
    let position = scan.position;
    let depth = scan.depth;
    match token {
        Token::Letter(repeat) => mark_letter(masks, repeat, position, depth),
        Token::Open => mark_open(masks, position, depth),
        Token::Bar => mark_bar(masks, position, depth - 1),
        Token::Close(shown) => mark_close(masks, frame, position, depth - 1, shown),
    }
}
