// Letters: plain bytes, escapes, `.` and classes.
ghost use Rattle.std.specs.Prelude.{◌≤◌, drop, length};
ghost use Rattle.model.specs.Models.Reader.{read_member};
ghost use Rattle.rule_letters.specs.Answers.{ClassTells, LetterSays, LetterTells, SingleTells};
ghost use Rattle.rule_letters.specs.Classes.{after_escape, after_lower};

use crate::Class;
use crate::escapes::read_escape;
use rule_bytes::{Unreadable, byte_at, is_bare, is_plain};

// A single of a class, at least lo: an escape, or a plain byte other than `-`.
fn read_single(rule: &[u8], at: usize, lo: u8) -> Result<(u8, usize), Unreadable>
    requires { at ≤ length rule.now }
    ensures { SingleTells lo rule.now at result }
{
    let x = byte_at(rule, at);
    if is_bare(x) {
        if x < lo {
            return Err(Unreadable(at));
        }
        return Ok((x, at + 1));
    }
    if x != b'\\' {
        return Err(Unreadable(at));
    }
    read_escape(rule, at + 1, lo)
}

// After the single lo: nothing more, or `-` and the upper end of a range.
fn read_upper(rule: &[u8], at: usize, lo: u8) -> Result<(Class, usize), Unreadable>
    requires { at ≤ length rule.now }
    ensures { LetterSays rule.now (after_lower lo (drop at rule.now)) result }
{
    if byte_at(rule, at) != b'-' {
        return Ok((Class::span(lo, lo), at));
    }
    let (hi, p) = read_single(rule, at + 1, lo)?;
    Ok((Class::span(lo, hi), p))
}

// A single or a range.
fn read_member(rule: &[u8], at: usize) -> Result<(Class, usize), Unreadable>
    requires { at ≤ length rule.now }
    ensures { LetterSays rule.now (read_member (drop at rule.now)) result }
{
    let (lo, p) = read_single(rule, at, 0)?;
    read_upper(rule, p, lo)
}

// A class, after its `[`: one or more members and `]`.
fn read_members(rule: &[u8], at: usize) -> Result<(Class, usize), Unreadable>
    requires { at ≤ length rule.now }
    ensures { ClassTells rule.now at result }
{
    let mut class = Class::none();
    let mut p = at;
    // No for: the place moves on by what was read.
    loop {
        let (member, q) = read_member(rule, p)?;
        class = class.or(member);
        p = q;
        if byte_at(rule, p) == b']' {
            return Ok((class, p + 1));
        }
    }
}

// An escape as a letter, after its `\`.
fn read_escaped(rule: &[u8], at: usize) -> Result<(Class, usize), Unreadable>
    requires { at ≤ length rule.now }
    ensures { LetterSays rule.now (after_escape (drop at rule.now)) result }
{
    let (b, p) = read_escape(rule, at, 0)?;
    Ok((Class::one(b), p))
}

// A letter; at the rule's end there is none, and past it neither.
pub fn read_letter(rule: &[u8], at: usize) -> Result<(Class, usize), Unreadable>
    ensures { LetterTells rule.now at result }
{
    if at >= rule.len() {
        return Err(Unreadable(rule.len()));
    }
    match rule[at] {
        b'.' => Ok((Class::dot(), at + 1)),
        b'[' => read_members(rule, at + 1),
        b'\\' => read_escaped(rule, at + 1),
        x if is_plain(x) => Ok((Class::one(x), at + 1)),
        _ => Err(Unreadable(at)),
    }
}
