// Masks in a row of words, eight for each: state i is bit i mod 64 of word i/64. For each of nine depths there is one of each plane (`plane`).
// Plane and depth are two numbers: a struct of both, made anew for each mask that is marked or read, takes more lines than the clauses that it saves.
ghost use Rattle.std.specs.Prelude.{◌≡◌, suc, ◌+◌, ◌≤◌, ◌<◌};
ghost use Rattle.tokens_masks.specs.Masks.{edge_in, Joined, planes, run_in};

use crate::plane::{PROPAGATE_BLOCK, place_of};

// One more state in the mask of a plane and a depth.
pub fn mark(masks: &mut [u64; 936], plane: usize, depth: usize, state: usize)
    requires { (state < 512) × (plane < planes) × (depth < 9) }
    ensures { masks.new ≡ run_in masks.old plane depth state (suc state) }
{
    let at = place_of(depth, plane, state / 64);
    masks[at] = masks[at] | (1u64 << (state % 64));
}

// The states from `from` up to `to` less 1.
pub fn mark_run(masks: &mut [u64; 936], plane: usize, depth: usize, from: usize, to: usize)
    requires { (to ≤ 512) × (plane < planes) × (depth < 9) }
    ensures { masks.new ≡ run_in masks.old plane depth from to }
{
    for state in from..to {
        mark(masks, plane, depth, state);
    }
}

// An edge: the state that it leaves, and in the next plane the one that it enters.
pub fn mark_edge(masks: &mut [u64; 936], plane: usize, depth: usize, from: usize, to: usize)
    requires { (from < 512) × (to < 512) × (depth < 9) × (plane + 1 < planes) }
    ensures { masks.new ≡ edge_in masks.old plane depth from to }
{
    mark(masks, plane, depth, from);
    mark(masks, plane + 1, depth, to);
}

// Propagate: block, the states that an edge leaves or enters; source, the smallest of each chain, which no edge enters; target, the largest, which
// none leaves. Word n of the nine depths' masks after word n - 1.
pub fn join_propagate(masks: &mut [u64; 936])
    ensures { Joined masks.old masks.new }
{
    for n in 0..72 {
        let at = place_of(n / 8, PROPAGATE_BLOCK, n % 8);
        let leaving = masks[at + 8];
        let entering = masks[at + 16];
        masks[at] = leaving | entering;
        masks[at + 8] = leaving & !entering;
        masks[at + 16] = entering & !leaving;
    }
}
