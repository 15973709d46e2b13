// The two rounds of a rule with back edges: the passes, the targets of the back edges whose sources are then live, and the passes once more.
ghost use Rattle.std.specs.Prelude.{◌≡◌, ◌+◌, ◌*◌, ◌<◌, ◌≤◌, [], ◌∷◌};
ghost use Rattle.model.specs.Models.Run.{return_words};
ghost use Rattle.model.specs.Models.Words.{or_words};
ghost use Rattle.run_word.specs.One.{Closed, Returned, word_at};

use crate::steps::pass;
use crate::work::Work;
use run_back::lead_back;

// The targets of depth k added, where `first` is what the passes gave: none without a live source, and no new one where all are live.
fn return_at(first: u64, live: u64, k: usize, backs: &[u64; 16]) -> u64
    requires { k < 8 }
    ensures { result ∷ [] ≡ or_words (live ∷ []) (return_words (word_at backs.now (2 * k)) (word_at backs.now (2 * k + 1)) (first ∷ [])) }
{
    let source = backs[2 * k];
    let target = backs[2 * k + 1];
    if source & first == 0 {
        return live;
    }
    if live | target == live {
        return live;
    }
    live | lead_back(first, source, target, false)
}

// Those of all depths.
fn returns(first: u64, depth: usize, backs: &[u64; 16]) -> u64
    requires { depth ≤ 8 }
    ensures { Returned backs.now depth first result }
{
    let mut r = first;
    for k in (0..depth).rev() {
        r = return_at(first, r, k, backs);
    }
    r
}

// All that the live states reach by edges without a letter: the second round only where the back edges add something.
pub fn close(live: u64, work: &Work) -> u64
    ensures { Closed work.now.any work.now.table work.now.backs work.now.depth live result }
{
    let first = pass(live, work.depth, work.any, &work.table);
    let more = returns(first, work.depth, &work.backs);
    if more == first {
        return first;
    }
    pass(more, work.depth, work.any, &work.table)
}
