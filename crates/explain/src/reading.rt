// A record read: start, end, and the state of each line. What else stands in a line is compared when the record is written anew, and not here.
ghost use Rattle.std.specs.Prelude.{MatchResult, ◌+◌, ◌≤◌, length};
ghost use Rattle.explain.specs.Readings.{Fits, Small};

// A number, and what comes after its line.
#[derive(Clone, Copy)]
pub struct Numbered<'a> {
    pub number: usize,
    pub rest: &'a [u8],
}

// What a record proposes: start, end and how many states there are.
#[derive(Clone, Copy)]
pub struct Claim {
    pub start: usize,
    pub end: usize,
    pub count: usize,
}

// The first line that can't be read.
#[derive(Clone, Copy)]
pub struct Unreadable {
    pub line: usize,
}

// What comes after the next blank of the line.
fn past_blank(bytes: &[u8]) -> Option<&[u8]> {
    for (at, byte) in bytes.iter().enumerate() {
        if *byte == b' ' {
            return Some(&bytes[at + 1..]);
        }
        if *byte == b'\n' {
            return None;
        }
    }
    None
}

// One digit more. A million stands for every larger number: no place and no state is as large.
fn with_digit(value: usize, digit: u8) -> usize
    requires { value ≤ 1000000 }
    ensures { result ≤ 1000000 }
{
    let longer = value * 10 + usize::from(digit.wrapping_sub(b'0'));
    longer.min(1000000)
}

// A line's rest: a word, a number and the line's end.
pub fn read_line<'a>(bytes: &'a [u8], word: &[u8]) -> Option<Numbered<'a>>
    ensures { Small result }
{
    let digits = bytes.strip_prefix(word)?;
    let mut number = 0;
    for (length, byte) in digits.iter().enumerate() {
        if byte.is_ascii_digit() {
            number = with_digit(number, *byte);
        } else if length > 0 && *byte == b'\n' {
            let rest = &digits[length + 1..];
            return Some(Numbered { number, rest });
        } else {
            return None;
        }
    }
    None
}

// The state of a line, which is its last word; the place and the byte stand before it.
fn read_step(bytes: &[u8]) -> Option<Numbered<'_>>
    ensures { Small result }
{
    let byte = past_blank(bytes)?;
    let state = past_blank(byte)?;
    read_line(state, b"state ")
}

// The states of the lines, as many as there is room for: a line more can't be read.
fn read_steps(bytes: &[u8], states: &mut [u32]) -> Result<usize, Unreadable>
    requires { length states.old ≤ 65535 }
    ensures { MatchResult result (λ count. count ≤ length states.new) (λ unread. unread.line ≤ length states.new + 3) }
{
    let mut rest = bytes;
    for (count, state) in states.iter_mut().enumerate() {
        if rest.is_empty() {
            return Ok(count);
        }
        let step = read_step(rest).ok_or(Unreadable { line: count + 3 })?;
        *state = step.number as u32;
        rest = step.rest;
    }
    if rest.is_empty() {
        Ok(states.len())
    } else {
        Err(Unreadable {
            line: states.len() + 3,
        })
    }
}

pub fn read_record(bytes: &[u8], states: &mut [u32]) -> Result<Claim, Unreadable>
    requires { length states.old ≤ 65535 }
    ensures { Fits (length states.new) result }
{
    let start = read_line(bytes, b"start ").ok_or(Unreadable { line: 1 })?;
    let end = read_line(start.rest, b"end ").ok_or(Unreadable { line: 2 })?;
    let count = read_steps(end.rest, states)?;
    Ok(Claim {
        start: start.number,
        end: end.number,
        count,
    })
}
