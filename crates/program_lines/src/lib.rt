// Lines of bytes and numbers in a lent text, as far as there is room. The place after them has to be a number of 64 bits; the line of a number has at most
// 21 bytes.

#![tactic(auto)]

ghost use Rattle.std.specs.Prelude.{◌≡◌, ◌+◌, ◌*◌, ◌^◌, ◌≤◌, ◌<◌, min, length, take};
ghost use Rattle.answers.specs.Answers.{number_of, place_of};
ghost use Rattle.program_lines.specs.Lines.{decimal, end_lines, line, refused_text, total_text};
ghost use Rattle.program_lines.specs.Work.{PutAt};

use answers::Refusal;

// Bytes one after another from a place on, and the place after them.
pub fn put(text: &mut [u8], at: usize, bytes: &[u8]) -> usize
    requires { at + length bytes.now < 2 ^ 64 }
    ensures { PutAt bytes.now text.old at result text.new }
{
    for (i, byte) in bytes.iter().enumerate() {
        let place = at + i;
        if place < text.len() {
            text[place] = *byte;
        }
    }
    at + bytes.len()
}

pub fn put_line(text: &mut [u8], at: usize, bytes: &[u8]) -> usize
    requires { at + length bytes.now + 1 < 2 ^ 64 }
    ensures { PutAt (line bytes.now) text.old at result text.new }
{
    let after = put(text, at, bytes);
    put(text, after, b"\n")
}

pub fn put_number(text: &mut [u8], at: usize, number: u64) -> usize
    requires { at + 21 < 2 ^ 64 }
    ensures { PutAt (line (decimal number)) text.old at result text.new }
{
    let mut digits = [0u8; 20];
    let length = io::decimal(number, &mut digits);
    put_line(text, at, &digits[..length])
}

// `total T`
pub fn put_total(text: &mut [u8], at: usize, total: u64) -> usize
    requires { at + 27 < 2 ^ 64 }
    ensures { PutAt (total_text total) text.old at result text.new }
{
    let after = put(text, at, b"total ");
    put_number(text, after, total)
}

// `refused N`, or `refused 2 at P`: at most 34 bytes.
pub fn put_refusal(text: &mut [u8], refusal: Refusal) -> usize
    ensures line { PutAt (refused_text (number_of refusal) (place_of refusal)) text.old 0 result text.new }
    ensures short { result ≤ 34 }
{
    let n = refusal.number();
    if n == 2 {
        let place_at = put(text, 0, b"refused 2 at ");
        return put_number(text, place_at, refusal.place() as u64);
    }
    let number_at = put(text, 0, b"refused ");
    put_number(text, number_at, n)
}

// A line for each of the first ends, as many as are counted and were lent.
pub fn put_ends(text: &mut [u8], at: usize, ends: &[u32], count: usize) -> usize
    requires { at + 21 * length ends.now < 2 ^ 64 }
    ensures { PutAt (end_lines (take count ends.now)) text.old at result text.new }
{
    let shown = count.min(ends.len());
    let mut next = at;
    for end in &ends[..shown] {
        next = put_number(text, next, u64::from(*end));
    }
    next
}
