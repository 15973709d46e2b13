// The back step on one word: from the live sources of back edges to their targets. A target's source is the first one at or past it, and what is known
// there has to go down, which no sum does: so it is found for every place at once, over twice as many places at each step.

#![tactic(auto)]

ghost use Rattle.std.specs.Prelude.{◌≡◌, ◌<◌};
ghost use Rattle.model.specs.Bits.{bit};
ghost use Rattle.model.specs.Models.Run.{ahead, back_word};
ghost use Rattle.run_back.specs.Seen.{Doubled, Seen};

// Of the next so many places, from each place on: whether a source is among them, and whether the first one is live.
#[derive(Clone, Copy)]
struct Near {
    some: u64,
    first: u64,
}

// Of twice as many: where the first n have no source, the n after them decide.
fn twice(near: Near, n: u32) -> Near
    requires { n < 64 }
    ensures { Doubled n near result }
{
    Near {
        some: near.some | (near.some >> n),
        first: near.first | ((near.first >> n) & !near.some),
    }
}

// Of all places of a word.
fn look(live: u64, source: u64) -> Near
    ensures { Seen 64 source live result }
{
    let one = Near {
        some: source,
        first: source & live,
    };
    let four = twice(twice(one, 1), 2);
    let sixteen = twice(twice(four, 4), 8);
    twice(twice(sixteen, 16), 32)
}

// The targets whose source is live. Where no source is at or past a target in this word, the words above decide.
pub fn lead_back(live: u64, source: u64, target: u64, above: bool) -> u64
    ensures { result ≡ back_word above source target live }
{
    let near = look(live, source);
    if above {
        return target & (near.first | !near.some);
    }
    target & near.first
}

// Whether the first source is live; what is known of the words above, if this one has none.
pub fn first_live(live: u64, source: u64, above: bool) -> bool
    ensures { result ≡ ahead 64 above (bit source) (bit live) 0 }
{
    if source == 0 {
        return above;
    }
    (live >> u64::trailing_zeros(source)) & 1 == 1
}
