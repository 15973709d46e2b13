// The states of a spelling, from its start to its end: stretch by stretch of at most 256 bytes, whose sets are computed anew from a kept one.
ghost use Rattle.std.specs.Prelude.{◌≡◌, ◌≤◌, ◌<◌, length};
ghost use Rattle.spelling_propose.specs.Work.{ChooseSays, FillSays, SetSays, StopSays, Stretch, WalkAsks, WalkSays, WriteAsks, WriteSays};

use crate::earlier::{back, ending};
use crate::origins::Origins;
use crate::search::Kept;
use crate::sets::lowest;
use mask::Mask;
use mask::logic::and;
use run_edges::Edges;

// The sets of the places after lo up to hi, from that of hi.
// No record of text, lo and hi: the clauses name each of the three, and would grow by more than the two functions that take them would save.
fn fill(origins: &Origins, text: &[u8], lo: usize, hi: usize, set: [u64; 8], sets: &mut Kept)
    requires { Stretch text.now lo hi }
    ensures { FillSays origins.now.edges.now.image.words.now text.now lo hi set sets.new }
{
    let mut here = set;
    for k in (lo..hi).rev() {
        sets[k - lo] = here;
        let before = back(origins, here, text[k]);
        here = before;
    }
}

// Of the states that a byte enters from what a state reaches, the lowest that is in the set.
fn choose(edges: &Edges, at: usize, set: [u64; 8], byte: u8) -> usize
    ensures { ChooseSays edges.now.image.words.now at set byte result }
{
    let from = edges.reach(at);
    let entered = edges.enter(from, byte);
    let both = and(entered, Mask { words: set }, 8);
    lowest(both.words)
}

// The states that the bytes from lo to hi enter, after the state `from`: each one from which the other bytes lead on.
fn walk(
    edges: &Edges,
    text: &[u8],
    lo: usize,
    hi: usize,
    sets: &Kept,
    from: usize,
    start: usize,
    states: &mut [u32],
) -> usize
    requires { WalkAsks text.now lo hi from start states.old }
    ensures { WalkSays edges.now.image.words.now text.now lo hi sets.now from start states.old result states.new }
{
    let mut at = from;
    for k in lo..hi {
        at = choose(edges, at, sets[k - lo], text[k]);
        states[k - start] = at as u32;
    }
    at
}

// Where the stretch stops that begins at a place: at the next 256th place, or at the end.
fn stop_after(k: usize, end: usize) -> usize
    requires { (k < end) × (end ≤ 65535) }
    ensures { StopSays k end result }
{
    let next = (k / 256 + 1) * 256;
    next.min(end)
}

// The set of a place at which a stretch stops.
fn set_at(origins: &Origins, end: usize, kept: &Kept, stop: usize) -> [u64; 8]
    requires { stop ≤ 65535 }
    ensures { SetSays origins.now.edges.now.image.words.now end kept.now stop result }
{
    if stop == end {
        return ending(origins);
    }
    kept[stop / 256]
}

// The states of the spelling from start to end, into the first words of the list.
pub fn write(
    origins: &Origins,
    text: &[u8],
    start: usize,
    end: usize,
    kept: &Kept,
    states: &mut [u32],
)
    requires { WriteAsks text.now start end states.old }
    ensures { WriteSays origins.now.edges.now.image.words.now text.now start end kept.now states.old states.new }
{
    let none = [0u64; 8];
    let mut sets = [none; 256];
    let mut at: usize = 0;
    let mut k = start;
    // No for: a stretch goes to the next 256th place, so the first and the last may be shorter.
    while k < end {
        let stop = stop_after(k, end);
        let set = set_at(origins, end, kept, stop);
        fill(origins, text, k, stop, set, &mut sets);
        at = walk(origins.edges, text, k, stop, &sets, at, start, states);
        k = stop;
    }
}
