// What one repeat sign is: document 01, "The grammar". Readers go over the rule's bytes from a place on and answer what they read and the place after
// it, or the place of the first byte that cannot be read. A reader of a number is told the least one that will do, and stops at the digit after
// which that is out of reach.

#![tactic(auto)]

ghost use Rattle.std.specs.Prelude.{true, ◌≡◌, ◌-◌, ◌≤◌, drop, length};
ghost use Rattle.model.specs.Bytes.{byte, digital};
ghost use Rattle.model.specs.Models.Reader.{close as closeOf, read_bounds, read_braces, read_digits};
ghost use Rattle.rule_signs.specs.Answers.{bounds_of, BoundsSays, NumberSays, NumberTells, SignSays, SignTells};
ghost use Rattle.rule_signs.specs.Repeats.{after_first, last_bound};

use rule_bytes::{Unreadable, byte_at, is_digit};
use tokens::token::Repeat;

// The two numbers in braces.
#[derive(Clone, Copy)]
struct Bounds {
    x: usize,
    y: usize,
}

// How often a letter is taken: by one sign or none, or by the numbers in braces.
#[derive(Clone, Copy)]
pub enum HowOften {
    Plainly(Repeat),
    Times(usize, usize),
}

fn digit_value(x: u8) -> usize
    requires { digital x ≡ true }
    ensures { (result ≡ x - byte "0") × (result ≤ 9) }
{
    (x - b'0') as usize
}

// At most a third digit, after v.
fn read_third(rule: &[u8], at: usize, least: usize, v: usize) -> Result<(usize, usize), Unreadable>
    requires { (at ≤ length rule.now) × (v ≤ 99) }
    ensures { NumberSays rule.now (read_digits 1 least v (drop at rule.now)) result }
{
    let x = byte_at(rule, at);
    if is_digit(x) {
        let n = 10 * v + digit_value(x);
        if n < least {
            return Err(Unreadable(at));
        }
        return Ok((n, at + 1));
    }
    if v < least {
        return Err(Unreadable(at));
    }
    Ok((v, at))
}

// At most a second and a third digit, after v. Not one function with the third digit alone: each has its own bound on what may still follow.
fn read_second(rule: &[u8], at: usize, least: usize, v: usize) -> Result<(usize, usize), Unreadable>
    requires { (at ≤ length rule.now) × (v ≤ 9) }
    ensures { NumberSays rule.now (read_digits 2 least v (drop at rule.now)) result }
{
    let x = byte_at(rule, at);
    if is_digit(x) {
        let n = 10 * v + digit_value(x);
        if 10 * n + 9 < least {
            return Err(Unreadable(at));
        }
        return read_third(rule, at + 1, least, n);
    }
    if v < least {
        return Err(Unreadable(at));
    }
    Ok((v, at))
}

// A number of at least `least`: 1 to 3 digits, and no leading zero except `0` itself.
fn read_number(rule: &[u8], at: usize, least: usize) -> Result<(usize, usize), Unreadable>
    requires { at ≤ length rule.now }
    ensures { NumberTells least rule.now at result }
{
    let x = byte_at(rule, at);
    if !is_digit(x) {
        return Err(Unreadable(at));
    }
    if x == b'0' {
        if 0 < least {
            return Err(Unreadable(at));
        }
        return Ok((0, at + 1));
    }
    let v = digit_value(x);
    if 100 * v + 99 < least {
        return Err(Unreadable(at));
    }
    read_second(rule, at + 1, least, v)
}

// The second number of a pair whose first is x.
fn read_last(rule: &[u8], at: usize, x: usize, least: usize) -> Result<(Bounds, usize), Unreadable>
    requires { at ≤ length rule.now }
    ensures { BoundsSays rule.now (last_bound x least (drop at rule.now)) result }
{
    let (y, p) = read_number(rule, at, least)?;
    Ok((Bounds { x, y }, p))
}

// After the first number x: nothing more, or `,` and a number that is at least x and at least 1.
fn read_after(rule: &[u8], at: usize, x: usize) -> Result<(Bounds, usize), Unreadable>
    requires { at ≤ length rule.now }
    ensures { BoundsSays rule.now (after_first x (drop at rule.now)) result }
{
    if byte_at(rule, at) != b',' {
        return Ok((Bounds { x, y: x }, at));
    }
    read_last(rule, at + 1, x, x.max(1))
}

// `,y`, or `x,y`, or `x`.
fn read_bounds(rule: &[u8], at: usize) -> Result<(Bounds, usize), Unreadable>
    requires { at ≤ length rule.now }
    ensures { BoundsSays rule.now (read_bounds (drop at rule.now)) result }
{
    if byte_at(rule, at) == b',' {
        return read_last(rule, at + 1, 0, 1);
    }
    let (x, p) = read_number(rule, at, 0)?;
    read_after(rule, p, x)
}

// `}` after the two numbers, of which the second is at least 1.
fn close(rule: &[u8], at: usize, bounds: Bounds) -> Result<(HowOften, usize), Unreadable>
    requires { at ≤ length rule.now }
    ensures { SignSays rule.now (closeOf (bounds_of bounds) (drop at rule.now)) result }
{
    if bounds.y == 0 || byte_at(rule, at) != b'}' {
        return Err(Unreadable(at));
    }
    Ok((HowOften::Times(bounds.x, bounds.y), at + 1))
}

// Braces, after their `{`.
fn read_braces(rule: &[u8], at: usize) -> Result<(HowOften, usize), Unreadable>
    requires { at ≤ length rule.now }
    ensures { SignSays rule.now (read_braces (drop at rule.now)) result }
{
    let (bounds, p) = read_bounds(rule, at)?;
    close(rule, p, bounds)
}

// At most one repeat sign; at the rule's end there is none, and past it neither.
pub fn read_sign(rule: &[u8], at: usize) -> Result<(HowOften, usize), Unreadable>
    ensures { SignTells rule.now at result }
{
    if at >= rule.len() {
        return Ok((HowOften::Plainly(Repeat::Once), rule.len()));
    }
    match rule[at] {
        b'?' => Ok((HowOften::Plainly(Repeat::Option), at + 1)),
        b'*' => Ok((HowOften::Plainly(Repeat::Star), at + 1)),
        b'+' => Ok((HowOften::Plainly(Repeat::Plus), at + 1)),
        b'{' => read_braces(rule, at + 1),
        _ => Ok((HowOften::Plainly(Repeat::Once), at)),
    }
}
