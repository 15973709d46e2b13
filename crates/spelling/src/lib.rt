// Spellings (document 02, Wish 9): which bytes of a text did it, and by which states. The check of a proposal, whoever made it; the crate `spelling_propose` makes
// one.

#![tactic(auto)]

mod follow;

ghost use Rattle.answers.specs.Answers.{judgement};
ghost use Rattle.model.specs.Spelling.{CheckSays};
ghost use Rattle.spelling.specs.Work.{RightSays};

use crate::follow::follow;
use answers::Refusal;
use image_check::{Checked, check};
use image_sections::Image;
use run::table::Work;
use run_edges::Edges;

// Whether a proposal is right: a start place, an end place, and for each byte between them the state that it enters. The image is checked in this same
// call. The refusals are 6 and 7; otherwise yes or no.
pub fn check_spelling(
    image: &[u64],
    text: &[u8],
    start: usize,
    end: usize,
    states: &[u32],
) -> Result<bool, Refusal>
    ensures { CheckSays image.now text.now start end states.now (judgement result) }
{
    // The image alone is kept, so that the tape's place on the stack is free for the masks of work.
    let Some(Checked { image: found, .. }) = check(image) else {
        return Err(Refusal::NotAnImage);
    };
    if text.len() > 65535 {
        return Err(Refusal::TextTooLong);
    }
    Ok(is_right(&found, text, start, end, states))
}

// Places and length first, and then the states. One pass for each byte: a short proposal costs little.
// No record of the proposal: it comes in as the three arguments of the C interface, and goes on as two of them once its length is known.
// Not unfolded, for else the masks of work lie on the stack while the image is checked; and the edges are made here, where they lie: as a result of
// `Edges::of` they stand there twice more, and a call takes 29,800 bytes of stack where it takes 17,400.
#[inline(never)]
fn is_right(image: &Image, text: &[u8], start: usize, end: usize, states: &[u32]) -> bool
    ensures { RightSays image.now.words.now text.now start end states.now result }
{
    if end > text.len() {
        return false;
    }
    if start > end {
        return false;
    }
    if states.len() != end - start {
        return false;
    }
    let last = image.sections.states - 1;
    let edges = Edges {
        image: *image,
        masks: Work::of(image),
    };
    follow(&edges, text, start, states, last)
}
