// What the scan over a tape knows before each token, and which tokens may stand there. The open unions are in a row of frames beside it, outermost
// first, which is not handed on from token to token: the innermost frame is read, and one frame is stored.

#![tactic(auto)]

pub mod kind;
pub mod token;

ghost use Rattle.std.specs.Prelude.{◌≡◌, false, ◌-◌, ◌<◌, ◌≤◌};
ghost use Rattle.model.specs.Models.LayOut.{fitting, next_alternative};
ghost use Rattle.model.specs.Models.Tokens.{a_bar, a_close, a_letter, an_open};
ghost use Rattle.tokens.specs.Scans.{BeginSays, EndSays, FitSays, frame_of, no_frame, opened_at, ReadyAt, StepSays};
ghost use Rattle.tokens.specs.Tokens.{mark_of, repeat_of, token_of};

use crate::token::{Mark, Repeat, Token, can_omit, can_skip};

// An open union: its start; once a bar was met, its first alternative's end; the start of the alternative at hand; whether an alternative before
// that one can be empty; whether what stands before the union in its own sequence can be empty.
#[derive(Clone, Copy)]
pub struct Frame {
    pub start: usize,
    pub first_end: Option<usize>,
    pub alternative: usize,
    pub empty_before: bool,
    pub empty_outside: bool,
}

// The state reached; of the sequence at hand, whether it has no item yet and whether it can be empty so far; and how many unions are open, which
// is the depth of the sequence at hand.
#[derive(Clone, Copy)]
pub struct Scan {
    pub position: usize,
    pub no_item: bool,
    pub can_be_empty: bool,
    pub depth: usize,
}

// The scan after a token, and the frame to be stored, with its place.
#[derive(Clone, Copy)]
pub struct Next {
    pub scan: Scan,
    pub frame: Frame,
    pub place: usize,
}

// Before the first token.
pub fn begin_scan() -> Scan
    ensures { BeginSays result }
{
    Scan {
        position: 0,
        no_item: true,
        can_be_empty: true,
        depth: 0,
    }
}

// A frame that no union has.
pub fn no_frame() -> Frame
    ensures { result ≡ no_frame }
{
    Frame {
        start: 0,
        first_end: None,
        alternative: 0,
        empty_before: false,
        empty_outside: false,
    }
}

// The place of the innermost frame; where no union is open, any.
pub fn innermost(depth: usize) -> usize
    ensures { result ≡ depth - 1 }
{
    depth.saturating_sub(1)
}

// Whether a close may show its mark after several alternatives or one, of which some can be empty or none: a union that can be empty has an edge
// over it, a union of one alternative has one that only `?` explains, and a group with `*` has one body.
fn may_show(mark: Mark, several: bool, empty: bool) -> bool
    ensures { result ≡ fitting (mark_of mark) several empty }
{
    match mark {
        Mark::Unmarked => several & !empty,
        Mark::Optional => several | !empty,
        Mark::Starred => !several,
    }
}

// What is asked of a token where it stands, with the innermost frame: no alternative is empty, a close shows what fits its union, and none lies
// deeper than 8.
pub fn fits(scan: Scan, frame: Frame, token: Token) -> bool
    ensures { FitSays scan frame (token_of token) result }
{
    let depth = scan.depth;
    match token {
        Token::Letter(_) => true,
        Token::Open => depth < 8,
        Token::Bar => (depth > 0) & !scan.no_item,
        Token::Close(mark) => {
            let barred = frame.first_end.is_some();
            let fitting = may_show(mark, barred, frame.empty_before | scan.can_be_empty);
            (depth > 0) & fitting & !scan.no_item
        }
    }
}

// Whether the tape may end here: no union is open, and there is some item.
pub fn is_ended(scan: Scan) -> bool
    ensures { EndSays scan result }
{
    (scan.depth == 0) & !scan.no_item
}

// The frame of a union that opens here.
fn opened_frame(scan: Scan) -> Frame
    requires { scan.position < 511 }
    ensures { frame_of result ≡ opened_at scan }
{
    Frame {
        start: scan.position,
        first_end: None,
        alternative: scan.position + 1,
        empty_before: false,
        empty_outside: scan.can_be_empty,
    }
}

// The first alternative's end of a union whose alternative at hand ends in `position`.
pub fn first_end_of(frame: Frame, position: usize) -> usize
    ensures { result ≡ (next_alternative (frame_of frame) position false).first_end }
{
    frame.first_end.unwrap_or(position)
}

// The frame after a bar in `position`, where `can_be_empty` is said of the alternative before it.
fn next_frame(frame: Frame, position: usize, can_be_empty: bool) -> Frame
    requires { position < 511 }
    ensures { frame_of result ≡ next_alternative (frame_of frame) position can_be_empty }
{
    Frame {
        first_end: Some(first_end_of(frame, position)),
        alternative: position + 1,
        empty_before: frame.empty_before | can_be_empty,
        ..frame
    }
}

// The steps stay four functions: they differ in every part of what comes next, and one for all of them would be handed its own result.
fn after_letter(scan: Scan, frame: Frame, repeat: Repeat) -> Next
    requires { (scan.position < 511) × (scan.depth ≤ 8) }
    ensures { StepSays scan frame (a_letter 0 (repeat_of repeat)) result }
{
    let next = Scan {
        position: scan.position + 1,
        no_item: false,
        can_be_empty: scan.can_be_empty & can_skip(repeat),
        ..scan
    };
    Next {
        scan: next,
        frame,
        place: scan.depth,
    }
}

fn after_open(scan: Scan, frame: Frame) -> Next
    requires { (scan.position < 511) × (scan.depth < 8) }
    ensures { StepSays scan frame an_open result }
{
    let next = Scan {
        position: scan.position + 1,
        no_item: true,
        can_be_empty: true,
        depth: scan.depth + 1,
    };
    Next {
        scan: next,
        frame: opened_frame(scan),
        place: scan.depth,
    }
}

fn after_bar(scan: Scan, frame: Frame) -> Next
    requires { (scan.position < 511) × ((0 < scan.depth) × (scan.depth ≤ 8)) }
    ensures { StepSays scan frame a_bar result }
{
    let next = Scan {
        position: scan.position + 1,
        no_item: true,
        can_be_empty: true,
        ..scan
    };
    Next {
        scan: next,
        frame: next_frame(frame, scan.position, scan.can_be_empty),
        place: scan.depth - 1,
    }
}

fn after_close(scan: Scan, frame: Frame, mark: Mark) -> Next
    requires { (scan.position < 511) × ((0 < scan.depth) × (scan.depth ≤ 8)) }
    ensures { StepSays scan frame (a_close (mark_of mark)) result }
{
    let next = Scan {
        position: scan.position + 1,
        no_item: false,
        can_be_empty: frame.empty_outside & can_omit(mark),
        depth: scan.depth - 1,
    };
    Next {
        scan: next,
        frame,
        place: scan.depth,
    }
}

// The scan after a token that fits.
pub fn step_over(scan: Scan, frame: Frame, token: Token) -> Next
    requires { ReadyAt scan frame token }
    ensures { StepSays scan frame (token_of token) result }
{
    match token {
        Token::Letter(repeat) => after_letter(scan, frame, repeat),
        Token::Open => after_open(scan, frame),
        Token::Bar => after_bar(scan, frame),
        Token::Close(mark) => after_close(scan, frame, mark),
    }
}
