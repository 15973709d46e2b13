// The watcher's operations as a library for C and firmware: a symbol for each, which trusts no caller. Each gives one 64-bit number, that of the
// documents' tables times 2^32 plus the count, or with number 2 the place.

#![tactic(auto)]

ghost use Rattle.std.specs.Prelude.{◌≡◌, ◌+◌, ◌*◌, ◌^◌, ◌<◌};
ghost use Rattle.model.specs.Answers.{BuildSays, MatchSays, ReadBackSays};
ghost use Rattle.model.specs.Spelling.{CheckSays, ProposeSays};
ghost use Rattle.model.specs.Watch.{BeginSays, StepSays, watch};
ghost use Rattle.answers.specs.Answers.{count_in, number_in, place_in};
ghost use Rattle.panel.specs.Says.{Gives, its_count, itself, one_if_yes, StartsBefore};

use answers::Refusal;
use watcher::{begin, build, check_spelling, match_ends, propose_spelling, read_back, step};

// An answer's number, and its place or its count, in one.
fn pack(answer: Result<usize, Refusal>) -> u64
    requires { place_in answer + count_in answer < 2 ^ 32 }
    ensures { result ≡ number_in answer * 2 ^ 32 + (place_in answer + count_in answer) }
{
    match answer {
        Ok(count) => count as u64,
        Err(refusal) => refusal.number() * 0x1_0000_0000 + refusal.place() as u64,
    }
}

// Build: from rule bytes to an image in lent words.
#[unsafe(no_mangle)]
pub extern "C" fn lavumbishe_build(rule: &[u8], image: &mut [u64]) -> u64
    ensures { Gives itself (BuildSays rule.now image.old) result image.new }
{
    let answer = build(rule, image);
    pack(answer)
}

// Read back: from an image to the plain writing of its tree, in lent bytes.
#[unsafe(no_mangle)]
pub extern "C" fn lavumbishe_read_back(image: &[u64], writing: &mut [u8]) -> u64
    ensures { Gives itself (ReadBackSays image.now writing.old) result writing.new }
{
    let answer = read_back(image, writing);
    pack(answer)
}

// Match: from an image and a text to the places of the ends, in lent 32-bit numbers.
#[unsafe(no_mangle)]
pub extern "C" fn lavumbishe_match(image: &[u64], text: &[u8], ends: &mut [u32]) -> u64
    ensures { Gives itself (MatchSays image.now text.now ends.old) result ends.new }
{
    let answer = match_ends(image, text, ends);
    pack(answer)
}

// Begin a watch: its mask, its place and place 0 as an end, in what is lent.
#[unsafe(no_mangle)]
pub extern "C" fn lavumbishe_begin(
    image: &[u64],
    mask: &mut [u64],
    place: &mut u64,
    ends: &mut [u32],
) -> u64
    ensures { Gives itself (BeginSays image.now mask.old place.old ends.old)
        result (watch mask.new place.new ends.new) }
{
    let answer = begin(image, mask, place, ends);
    pack(answer)
}

// One stretch more of a watch: mask and place go on from where they were lent.
#[unsafe(no_mangle)]
pub extern "C" fn lavumbishe_step(
    image: &[u64],
    mask: &mut [u64],
    place: &mut u64,
    stretch: &[u8],
    ends: &mut [u32],
) -> u64
    ensures { Gives itself (StepSays image.now mask.old place.old stretch.now ends.old)
        result (watch mask.new place.new ends.new) }
{
    let answer = step(image, mask, place, stretch, ends);
    pack(answer)
}

// Whether a proposal is right: a start place, an end place, and for each byte between them the state that it enters.
#[unsafe(no_mangle)]
pub extern "C" fn lavumbishe_check_spelling(
    image: &[u64],
    text: &[u8],
    start: u64,
    end: u64,
    states: &[u32],
) -> u64
    ensures { Gives one_if_yes (CheckSays image.now text.now start end states.now) result tt }
{
    let judged = check_spelling(image, text, start as usize, end as usize, states);
    pack(judged.map(|yes| yes as usize))
}

// A spelling for an end of a text: its states in lent 32-bit numbers; its start is the end less their number.
#[unsafe(no_mangle)]
pub extern "C" fn lavumbishe_propose_spelling(
    image: &[u64],
    text: &[u8],
    end: u64,
    states: &mut [u32],
) -> u64
    ensures { Gives its_count (StartsBefore end (ProposeSays image.now text.now end states.old)) result states.new }
{
    let proposed = propose_spelling(image, text, end as usize, states);
    pack(proposed.map(|stretch| stretch.count))
}
