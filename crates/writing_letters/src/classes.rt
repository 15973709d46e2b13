// Classes, as four words: byte b is bit b mod 64 of word b / 64.
ghost use Rattle.std.specs.Prelude.{◌≡◌, ◌+◌, ◌^◌, ◌≤◌, ◌<◌, eqb, length};
ghost use Rattle.std.proofs.lemmas.List.Edits.{sets};
ghost use Rattle.model.specs.Grammar.{dot_class};
ghost use Rattle.model.specs.Models.Words.{value};
ghost use Rattle.model.specs.Writing.{class_writing, outside};
ghost use Rattle.writing_letters.specs.Runs.{FirstIn, FirstOut};

use crate::{set_byte, write_byte, write_run};

// The first byte of the class from b on; 256 if there is none, the end at which the loop over the runs stops: an `Option` would have to be made that end
// again. What is left of a word is looked at as a whole.
fn next_in(class: [u64; 4], b: usize) -> usize
    requires { b ≤ 256 }
    ensures { FirstIn (value class) b result }
{
    let mut i = b;
    // No for: the place moves on to where the next word begins.
    while i < 256 {
        let rest = class[i / 64] >> (i % 64);
        if rest != 0 {
            return i + rest.trailing_zeros() as usize;
        }
        i = 64 * (i / 64 + 1);
    }
    256
}

// The first byte from b on that is not in the class.
fn next_out(class: [u64; 4], b: usize) -> usize
    requires { b ≤ 256 }
    ensures { FirstOut (value class) b result }
{
    next_in([!class[0], !class[1], !class[2], !class[3]], b)
}

// Whether the class is that of `.`: "every byte but 10".
fn is_dot(class: [u64; 4]) -> bool
    ensures { result ≡ eqb (value class) dot_class }
{
    class == [!(1 << 10), u64::MAX, u64::MAX, u64::MAX]
}

// "its maximal runs in rising order"
fn write_runs(out: &mut [u8], at: usize, class: [u64; 4]) -> usize
    requires { at < 2 ^ 31 }
    ensures place { result ≡ at + length (outside 256 (value class) 0) }
    ensures written { out.new ≡ sets out.old at (outside 256 (value class) 0) }
{
    let mut p = at;
    let mut lo = next_in(class, 0);
    // No for: where a run ends and the next begins is found on the way.
    while lo < 256 {
        let end = next_out(class, lo);
        p = write_run(out, p, lo as u8, (end - 1) as u8);
        lo = next_in(class, end);
    }
    p
}

// "A class of one byte is that byte .. Any other class is its maximal runs in rising order in `[ ]`"; and "The class of those 255 bytes is written `.`,
// and the class of all 256 is written `[\x00-\xFF]`." (document 02, Wish 4)
pub fn write_class(out: &mut [u8], at: usize, class: [u64; 4]) -> usize
    requires { at < 2 ^ 30 }
    ensures place { result ≡ at + length (class_writing (value class)) }
    ensures written { out.new ≡ sets out.old at (class_writing (value class)) }
{
    let first = next_in(class, 0);
    if first < 256 && next_in(class, first + 1) == 256 {
        return write_byte(out, at, first as u8);
    }
    if is_dot(class) {
        set_byte(out, at, b'.');
        return at + 1;
    }
    set_byte(out, at, b'[');
    let p = write_runs(out, at + 1, class);
    set_byte(out, p, b']');
    p + 1
}
