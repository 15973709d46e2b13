// A tree as its tape, and lay out: from the tape to the masks of scatter, gather, propagate and back edges for each depth.
//
// A tree with m states is a row of m - 1 tokens, one between each two neighbouring states. One scan over them, from left to right, knows all that
// the masks need: the crate `tokens` has the tokens and what is known before each, `stroke` the strokes of one token, `masks` the masks.

#![tactic(auto)]

mod masks;
pub mod plane;
mod stroke;

ghost use Rattle.std.specs.Prelude.{◌≡◌, ◌<◌};
ghost use Rattle.tokens_masks.specs.Masks.{Blank, planes, row_in, row_number};
ghost use Rattle.tokens_masks.specs.Says.{Laid, MasksSay, OnTapeSays};
ghost use Rattle.tokens_masks.specs.Tapes.{deeper_by, on_tape, PlanesHold, ScanLays};
ghost use Rattle.tokens.specs.Tokens.{token_of};

use crate::masks::join_propagate;
use crate::plane::place_of;
use crate::stroke::mark_token;
use tokens::kind::read_kind;
use tokens::token::Token;
use tokens::{begin_scan, fits, innermost, is_ended, no_frame, step_over};

// The first `length` of the kinds are a tree's tokens (crate `tokens`, module `kind`). An array with a length: fixed memory, no heap.
#[derive(Clone, Copy)]
pub struct Tape {
    pub kinds: [u8; 512],
    pub length: usize,
}

// The largest depth after a token: an open leads one deeper.
fn deeper(deepest: usize, depth: usize, token: Token) -> usize
    requires { depth < 9 }
    ensures { result ≡ deeper_by deepest depth (token_of token) }
{
    match token {
        Token::Open => deepest.max(depth + 1),
        _ => deepest,
    }
}

// The scan over the whole tape, which marks what each token marks.
fn scan_tape(tape: Tape, masks: &mut [u64; 936]) -> Option<usize>
    requires { Blank masks.old }
    ensures told { result ≡ on_tape tape }
    ensures masks { ScanLays tape masks.new }
{
    if tape.length > 511 {
        return None;
    }
    let mut frames = [no_frame(); 9];
    let mut scan = begin_scan();
    let mut deepest: usize = 0;
    for kind in &tape.kinds[..tape.length] {
        let token = read_kind(*kind);
        let frame = frames[innermost(scan.depth)];
        if !fits(scan, frame, token) {
            return None;
        }
        mark_token(masks, scan, frame, token);
        deepest = deeper(deepest, scan.depth, token);
        let next = step_over(scan, frame, token);
        frames[next.place] = next.frame;
        scan = next.scan;
    }
    if is_ended(scan) { Some(deepest) } else { None }
}

// What is marked for the tape. Where it is not a tree's, no mask has a state.
fn lay_planes(tape: Tape, masks: &mut [u64; 936]) -> Option<usize>
    ensures told { result ≡ on_tape tape }
    ensures planes { PlanesHold tape masks.new }
{
    masks.fill(0);
    let on_tape = scan_tape(tape, masks);
    if on_tape.is_none() {
        masks.fill(0);
    }
    on_tape
}

// Lay out: how deep the tree is whose tokens are on the tape, or none where they are no tree's within 512 states and depth 8; letter places and loop
// places; block, source and target of each depth; and source and target of its back edges.
pub fn lay_out(tape: Tape, masks: &mut [u64; 936]) -> Option<usize>
    ensures computed { result ≡ on_tape tape }
    ensures told { OnTapeSays tape result }
    ensures laid { Laid tape masks.new }
    ensures masks { MasksSay tape masks.new }
{
    let on_tape = lay_planes(tape, masks);
    join_propagate(masks);
    on_tape
}

// The mask of a depth and a plane, of those that lay out gives.
pub fn row_of(masks: &[u64; 936], depth: usize, plane: usize) -> [u64; 8]
    requires { (depth < 9) × (plane < planes) }
    ensures { result ≡ row_in masks.now (row_number depth plane) }
{
    let at = place_of(depth, plane, 0);
    let mut words = [0u64; 8];
    words.copy_from_slice(&masks[at..at + 8]);
    words
}
