// The states of a proposal, one after another: each is entered by its byte from what the one before reaches without a letter.
ghost use Rattle.std.specs.Prelude.{◌+◌, ◌≤◌, length};
ghost use Rattle.spelling.specs.Work.{FollowSays};

use mask::bits::has_bit;
use run_edges::Edges;

pub fn follow(edges: &Edges, text: &[u8], start: usize, states: &[u32], last: usize) -> bool
    requires { start + length states.now ≤ length text.now }
    ensures { FollowSays edges.now.image.words.now last text.now start states.now result }
{
    let mut q = 0;
    for (byte, state) in text[start..].iter().zip(states) {
        let from = edges.reach(q);
        let entered = edges.enter(from, *byte);
        let r = *state as usize;
        if !has_bit(entered, r) {
            return false;
        }
        q = r;
    }
    let from = edges.reach(q);
    has_bit(from, last)
}
