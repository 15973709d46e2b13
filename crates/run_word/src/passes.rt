// The four moves of the live states on one word, as `run::passes` has them on masks.
ghost use Rattle.std.specs.Prelude.{◌≡◌, [], ◌∷◌, if◌then◌else◌};
ghost use Rattle.model.specs.Models.Run.{gather_words, move_words, propagate_words, scatter_words};
ghost use Rattle.model.specs.Models.Words.{wrap_add};

// From each live union start to the starts of its alternatives.
pub fn scatter(live: u64, block: u64, source: u64, target: u64) -> u64
    ensures { result ∷ [] ≡ scatter_words (block ∷ []) (source ∷ []) (target ∷ []) (live ∷ []) }
{
    live | (block.wrapping_sub(live & source) & target)
}

// From each live end of an alternative to its union's end.
pub fn gather(live: u64, block: u64, source: u64, target: u64) -> u64
    ensures { result ∷ [] ≡ gather_words (block ∷ []) (source ∷ []) (target ∷ []) (live ∷ []) }
{
    live | (block.wrapping_add(live & source) & target)
}

// Along each chain of propagate edges, with the source less one: the complement of from - source is (source - 1) - from.
pub fn propagate(live: u64, block: u64, below: u64, target: u64) -> u64
    ensures { result ∷ [] ≡ propagate_words (block ∷ []) (wrap_add below 1 ∷ []) (target ∷ []) (live ∷ []) }
{
    let from = (live & block) | target;
    live | (block & (below.wrapping_sub(from) ^ from))
}

// The same for a rule of which it is known whether it has any chain: without one nothing is reached.
pub fn along(live: u64, any: bool, block: u64, below: u64, target: u64) -> u64
    ensures { result ∷ [] ≡ propagate_words ((if any then block else 0) ∷ []) (wrap_add below 1 ∷ []) (target ∷ []) (live ∷ []) }
{
    if any {
        return propagate(live, block, below, target);
    }
    live
}

// By a byte: one state on along the letters, staying along the repeats, and state 0.
pub fn advance(live: u64, letters: u64, repeats: u64) -> u64
    ensures { result ∷ [] ≡ move_words (letters ∷ []) (repeats ∷ []) (1 ∷ []) (live ∷ []) }
{
    (((live << 1) & letters) | (live & repeats)) | 1
}
