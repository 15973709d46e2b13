// Escapes, after their `\`. A reader is told the least byte lo that will do, and stops where no byte of at least lo can come any more.
ghost use Rattle.std.specs.Prelude.{true, ◌≡◌, ◌≤◌, drop, length};
ghost use Rattle.model.specs.Bytes.{hexadecimal};
ghost use Rattle.model.specs.Models.Reader.{hex_value, read_escape, read_hex, read_hexes};
ghost use Rattle.rule_letters.specs.Answers.{ByteSays};

use rule_bytes::{Unreadable, byte_at, is_escaped, is_hex};

fn hex_value(x: u8) -> u8
    requires { hexadecimal x ≡ true }
    ensures { (result ≡ hex_value x) × (result ≤ 15) }
{
    match x {
        b'0'..=b'9' => x - b'0',
        b'A'..=b'F' => x - 55,
        _ => x - 87,
    }
}

// The second hex digit, after the first one h.
fn read_hex(rule: &[u8], at: usize, lo: u8, h: u8) -> Result<(u8, usize), Unreadable>
    requires { (at ≤ length rule.now) × (h ≤ 15) }
    ensures { ByteSays rule.now (read_hex lo h (drop at rule.now)) result }
{
    let x = byte_at(rule, at);
    if !is_hex(x) {
        return Err(Unreadable(at));
    }
    let b = 16 * h + hex_value(x);
    if b < lo {
        return Err(Unreadable(at));
    }
    Ok((b, at + 1))
}

// Two hex digits, after `\x`.
fn read_hexes(rule: &[u8], at: usize, lo: u8) -> Result<(u8, usize), Unreadable>
    requires { at ≤ length rule.now }
    ensures { ByteSays rule.now (read_hexes lo (drop at rule.now)) result }
{
    let x = byte_at(rule, at);
    if !is_hex(x) {
        return Err(Unreadable(at));
    }
    let h = hex_value(x);
    if 16 * h + 15 < lo {
        return Err(Unreadable(at));
    }
    read_hex(rule, at + 1, lo, h)
}

// An escape, after its `\`.
pub fn read_escape(rule: &[u8], at: usize, lo: u8) -> Result<(u8, usize), Unreadable>
    requires { at ≤ length rule.now }
    ensures { ByteSays rule.now (read_escape lo (drop at rule.now)) result }
{
    let x = byte_at(rule, at);
    if is_escaped(x) {
        if x < lo {
            return Err(Unreadable(at));
        }
        return Ok((x, at + 1));
    }
    if x != b'x' {
        return Err(Unreadable(at));
    }
    read_hexes(rule, at + 1, lo)
}
