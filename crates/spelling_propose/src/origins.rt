// For each state the states that reach it without a letter, made once in a call by a pass from every state. Going back along such edges is then to gather
// the origins of a set's states: no pass goes the other way.
ghost use Rattle.std.specs.Prelude.{◌≡◌, ◌+◌, ◌≤◌, ◌<◌, length};
ghost use Rattle.spelling_propose.specs.Work.{IntoSays, IntoWordSays, NoteSays, OriginsSays};

use crate::sets::{either, with_state};
use mask::bits::row_has_bit;
use run_edges::Edges;

// Row p has the states that reach state p.
pub type Rows = [[u64; 8]; 512];

// The rows, lent beside the edges that they were made from.
#[derive(Clone, Copy)]
pub struct Origins<'a> {
    pub edges: &'a Edges<'a>,
    pub rows: &'a Rows,
    ghost reached: { OriginsSays edges.now.image.words.now edges.now.image.sections.states rows.now },
}

// State q into the rows of all that it reaches.
fn note(rows: &mut Rows, q: usize, reached: [u64; 8], count: usize)
    requires { (q < 512) × (count ≤ 512) }
    ensures { NoteSays rows.old q reached count rows.new }
{
    for p in 0..count {
        if row_has_bit(reached, p) {
            rows[p] = with_state(rows[p], q);
        }
    }
}

// Into lent rows, whatever they hold: as a result they would be copied twice, which takes 64 KB of stack.
pub fn find_origins(edges: &Edges, rows: &mut Rows)
    ensures { OriginsSays edges.now.image.words.now edges.now.image.sections.states rows.new }
{
    let count = edges.image.sections.states;
    let none = [0u64; 8];
    *rows = [none; 512];
    for q in 0..count {
        let reached = edges.reach(q);
        note(rows, q, reached.words, count);
    }
}

// To the states of r the origins of those of one word of a row, whose first state is `at`.
fn into_word(rows: &Rows, word: u64, at: usize, r: [u64; 8]) -> [u64; 8]
    requires { at + 64 ≤ 512 }
    ensures { IntoWordSays rows.now word at r result }
{
    let mut all = r;
    let mut left = word;
    // No for: only the bits that are set are looked at, each found on the way.
    while left != 0 {
        let bit = left.trailing_zeros();
        let more = either(all, rows[at + bit as usize]);
        all = more;
        left &= !(1 << bit);
    }
    all
}

// The states that reach a state of a row.
pub fn into(rows: &Rows, row: [u64; 8]) -> [u64; 8]
    ensures { IntoSays rows.now row result }
{
    let mut r = [0u64; 8];
    for (i, word) in row.iter().enumerate() {
        let more = into_word(rows, *word, 64 * i, r);
        r = more;
    }
    r
}
