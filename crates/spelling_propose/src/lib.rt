// The proposer of spellings (document 02, Wish 9): for an end of a text the latest start, and the states that its bytes enter.
// Going back from the end place, the set of states from which the bytes lead to the accepting state is computed place by place; the first place at which
// state 0 is among them is the latest start. Going forward from there, each byte enters a state of the next place's set. The sets of every 256th
// place are kept, and those of one stretch of 256 computed anew: every byte is gone back over twice, however long the text is.

#![tactic(auto)]

mod earlier;
mod origins;
mod search;
mod sets;
mod write;

ghost use Rattle.model.specs.Spelling.{ProposeSays};
ghost use Rattle.answers.specs.Answers.{proposal};
ghost use Rattle.spelling_propose.specs.Work.{ProposeAsks};

use crate::origins::{Origins, find_origins};
use crate::search::find_start;
use crate::write::write;
use answers::{Proposed, Refusal};
use image_check::check;
use run_edges::Edges;

// Propose: from an image, a text and an end to the latest start, and the states of a spelling in lent words. The image is checked in this same call.
// The refusals are 6, 7, 16 and 17; done gives the start and the number of states.
pub fn propose_spelling(
    image: &[u64],
    text: &[u8],
    end: usize,
    states: &mut [u32],
) -> Result<Proposed, Refusal>
    ensures { ProposeSays image.now text.now end states.old (proposal result states.new) }
{
    let checked = check(image).ok_or(Refusal::NotAnImage)?;
    if text.len() > 65535 {
        return Err(Refusal::TextTooLong);
    }
    if end > text.len() {
        return Err(Refusal::NotAnEnd);
    }
    propose(&Edges::of(checked.image), text, end, states)
}

// The search for the start, and then the states: for a place in the text.
fn propose(edges: &Edges, text: &[u8], end: usize, states: &mut [u32]) -> Result<Proposed, Refusal>
    requires { ProposeAsks edges.now.image.words.now text.now end }
    ensures { ProposeSays edges.now.image.words.now text.now end states.old (proposal result states.new) }
{
    let none = [0u64; 8];
    let mut rows = [none; 512];
    find_origins(edges, &mut rows);
    let origins = Origins { edges, rows: &rows };
    let mut kept = [none; 256];
    let found = find_start(&origins, text, end, &mut kept);
    let start = found.ok_or(Refusal::NotAnEnd)?;
    let count = end - start;
    if states.len() < count {
        return Err(Refusal::NoRoomForStates);
    }
    write(&origins, text, start, end, &kept, states);
    Ok(Proposed { start, count })
}
