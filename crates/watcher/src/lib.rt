// The watcher's operations: document 01, "Numbers given back", and document 02's watch and spellings. No caller is trusted; a refusal changes nothing
// that was lent and gives count 0. What each answer means in the documents' tables is defined in the crate `answers`.

#![tactic(auto)]

ghost use Rattle.model.specs.Answers.{BuildSays, MatchSays, ReadBackSays};
ghost use Rattle.model.specs.Spelling.{CheckSays, ProposeSays};
ghost use Rattle.model.specs.Watch.{BeginSays, StepSays, watch};
ghost use Rattle.answers.specs.Answers.{answered, judgement, proposal};

use answers::{Proposed, Refusal};
use image::store;
use image_check::check;
use rule::read_rule;
use run::ends::find;

// Build: from rule bytes to an image in lent words. The refusals are 1 to 5; done gives the image's length.
pub fn build(rule: &[u8], image: &mut [u64]) -> Result<usize, Refusal>
    ensures { BuildSays rule.now image.old (answered result image.new) }
{
    // No `?`: the must-fail edit one_number_for_all is one wrong arm of this.
    match read_rule(rule) {
        Ok(tree) => store(tree.tokens, tree.states - 1, image),
        Err(refusal) => Err(refusal),
    }
}

// Read back: from an image to the plain writing of its tree, in lent bytes. The refusals are 6 and 8; done gives the writing's length.
pub fn read_back(image: &[u64], bytes: &mut [u8]) -> Result<usize, Refusal>
    ensures { ReadBackSays image.now bytes.old (answered result bytes.new) }
{
    writing::read_back(image, bytes)
}

// Match: from an image and a text to the places of the ends, rising, as far as what is lent reaches. The image is checked in this same call: what
// was checked is what runs. The refusals are 6 and 7; done gives the total of ends.
pub fn match_ends(image: &[u64], text: &[u8], ends: &mut [u32]) -> Result<usize, Refusal>
    ensures { MatchSays image.now text.now ends.old (answered result ends.new) }
{
    let Some(checked) = check(image) else {
        return Err(Refusal::NotAnImage);
    };
    if text.len() > 65535 {
        return Err(Refusal::TextTooLong);
    }
    let total = find(&checked.image, text, ends);
    Ok(total as usize)
}

// Begin a watch: the live states before any byte into the mask, place 0, and place 0 as an end if it is one. The refusals are 6 and 9; done gives the
// total of ends at place 0.
pub fn begin(
    image: &[u64],
    mask: &mut [u64],
    place: &mut u64,
    ends: &mut [u32],
) -> Result<usize, Refusal>
    ensures { BeginSays image.now mask.old place.old ends.old
        (answered result (watch mask.new place.new ends.new)) }
{
    watch::begin(image, mask, place, ends)
}

// One stretch more: mask and place go on from where they were lent. The refusals are 6, 7, 9 and 10; done gives the total of ends in the stretch.
pub fn step(
    image: &[u64],
    mask: &mut [u64],
    place: &mut u64,
    stretch: &[u8],
    ends: &mut [u32],
) -> Result<usize, Refusal>
    ensures { StepSays image.now mask.old place.old stretch.now ends.old
        (answered result (watch mask.new place.new ends.new)) }
{
    watch::step(image, mask, place, stretch, ends)
}

// Check a spelling that anyone proposes: a start place, an end place, and for each byte between them the state that it enters. The refusals are 6 and 7;
// otherwise yes or no.
pub fn check_spelling(
    image: &[u64],
    text: &[u8],
    start: usize,
    end: usize,
    states: &[u32],
) -> Result<bool, Refusal>
    ensures { CheckSays image.now text.now start end states.now (judgement result) }
{
    spelling::check_spelling(image, text, start, end, states)
}

// Propose a spelling for an end of a text: the latest start, and the states in lent words. The refusals are 6, 7, 16 and 17; done gives the start and the
// number of states.
pub fn propose_spelling(
    image: &[u64],
    text: &[u8],
    end: usize,
    states: &mut [u32],
) -> Result<Proposed, Refusal>
    ensures { ProposeSays image.now text.now end states.old (proposal result states.new) }
{
    spelling_propose::propose_spelling(image, text, end, states)
}
