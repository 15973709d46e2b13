// The masks of work, from the image's words: the table, with those of scatter, gather and propagate for each depth, and beside it those of the back edges.
ghost use Rattle.std.specs.Prelude.{◌≡◌, ◌<◌, ◌≤◌, length};
ghost use Rattle.image_sections.specs.Sections.{Single};
ghost use Rattle.run_word.specs.Stretch.{WorkOf};
ghost use Rattle.run_word.specs.One.{Backs, Entered, entry_at, NoBack, NoChain};

use crate::work::Work;
use image_sections::Image;

// Word j of the nine of depth k.
fn entry(image: &Image, k: usize, j: usize) -> u64
    requires { Single image.now.sections (length image.now.words.now) × (k ≤ image.now.sections.depth) × (j < 9) }
    ensures { result ≡ entry_at image.now.words.now image.now.sections.depth k j }
{
    let words = image.words;
    let sections = image.sections;
    if j < 3 {
        return words[sections.scatter + 3 * k + j - 3];
    }
    if j < 6 {
        return words[sections.gather + 3 * k + j - 6];
    }
    let word = words[sections.propagate + 3 * k + j - 6];
    if j == 7 {
        return word.wrapping_sub(1);
    }
    word
}

// The words of depths 0 to d into their places.
fn put_table(table: &mut [u64; 81], image: &Image)
    requires { Single image.now.sections (length image.now.words.now) }
    ensures { Entered image.now.words.now image.now.sections.depth table.new }
{
    for i in 0..9 * (image.sections.depth + 1) {
        table[i] = entry(image, i / 9, i % 9);
    }
}

// Whether some depth has a chain.
fn any_chain(table: &[u64; 81], depth: usize) -> bool
    requires { depth ≤ 8 }
    ensures { NoChain table.now depth result }
{
    for k in 0..depth + 1 {
        if table[9 * k + 6] != 0 {
            return true;
        }
    }
    false
}

// Source and target of the back edges of each depth below d into theirs.
fn put_backs(backs: &mut [u64; 16], image: &Image)
    requires { Single image.now.sections (length image.now.words.now) }
    ensures { Backs image.now.words.now image.now.sections.depth backs.new }
{
    let at = image.sections.back;
    let count = 2 * image.sections.depth;
    backs[..count].copy_from_slice(&image.words[at..at + count]);
}

// The masks of work of an image. Unfolded where it is called, and filled where they lie: copied on their way they cost a call some 600 instructions more.
// Chains are said to be there until that has been asked.
#[inline(always)]
pub fn work_of(image: &Image) -> Work
    requires { Single image.now.sections (length image.now.words.now) }
    ensures { WorkOf image.now.words.now image.now.sections result }
{
    let mut r = Work {
        depth: image.sections.depth,
        last: image.sections.states - 1,
        any: true,
        table: [0; 81],
        backs: [0; 16],
    };
    put_table(&mut r.table, image);
    put_backs(&mut r.backs, image);
    r.any = any_chain(&r.table, r.depth);
    r
}

// Whether some depth has a back edge.
pub fn any_back(work: &Work) -> bool
    ensures { NoBack work.now.backs work.now.depth result }
{
    work.backs[..2 * work.depth].iter().any(|word| *word != 0)
}
