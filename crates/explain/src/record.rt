// The record of a proposal as it is written: `start N`, `end N`, and a line for each byte between them: the place after it, the byte in plain writing, and
// the state that it enters. A number of 32 bits has at most ten digits, so no line has more than 33 bytes.
ghost use Rattle.std.specs.Prelude.{◌≡◌, ◌+◌, ◌*◌, ◌^◌, ◌≤◌, ◌<◌, length};

use program_lines::{put, put_number};
use writing_letters::write_byte;

// A word and a number after it, and the line's end.
fn put_numbered(text: &mut [u8], at: usize, word: &[u8], number: usize) -> usize
    requires { (at < 2 ^ 32) × (length word.now < 20) × (number < 2 ^ 32) }
    ensures { result ≤ at + length word.now + 11 }
{
    let after = put(text, at, word);
    put_number(text, after, number as u64)
}

// A place with no line's end after it.
fn put_place(text: &mut [u8], at: usize, place: usize) -> usize
    requires { (at < 2 ^ 32) × (place < 2 ^ 32) }
    ensures { result ≤ at + 10 }
{
    let mut digits = [0u8; 20];
    let length = io::decimal(place as u64, &mut digits);
    put(text, at, &digits[..length])
}

// `13 O state 2`
fn put_step(text: &mut [u8], at: usize, place: usize, byte: u8, state: u32) -> usize
    requires { (at < 2 ^ 31) × (place < 2 ^ 32) }
    ensures { result ≤ at + 33 }
{
    let first = put_place(text, at, place);
    let second = put(text, first, b" ");
    let third = write_byte(text, second, byte);
    put_numbered(text, third, b" state ", state as usize)
}

// A line for each byte of the stretch, which begins at a place of the journal.
fn put_steps(text: &mut [u8], at: usize, start: usize, stretch: &[u8], states: &[u32]) -> usize
    requires { (at < 2 ^ 20) × (start + length stretch.now ≤ 65535) × (length states.now ≡ length stretch.now) }
    ensures { result ≤ at + 33 * length stretch.now }
{
    let mut next = at;
    for (i, (byte, state)) in stretch.iter().zip(states).enumerate() {
        next = put_step(text, next, start + i + 1, *byte, *state);
    }
    next
}

pub fn put_record(
    text: &mut [u8],
    stretch: &[u8],
    start: usize,
    end: usize,
    states: &[u32],
) -> usize
    requires { (end ≤ 65535) × (start + length stretch.now ≤ 65535) × (length states.now ≡ length stretch.now) }
    ensures { result ≤ 2162687 }
{
    let first = put_numbered(text, 0, b"start ", start);
    let second = put_numbered(text, first, b"end ", end);
    put_steps(text, second, start, stretch, states)
}

// Where a record can't be read.
pub fn put_unreadable(text: &mut [u8], line: usize) -> usize
    requires { line < 2 ^ 32 }
    ensures { result ≤ 30 }
{
    put_numbered(text, 0, b"unreadable at line ", line)
}
