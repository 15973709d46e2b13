// Plain writing (document 01) of single bytes and runs of them; `classes` has that of classes. What would lie past the room is counted and not written.

#![tactic(auto)]

pub mod classes;

ghost use Rattle.std.specs.Prelude.{◌≡◌, ◌+◌, ◌^◌, ◌<◌, length, set};
ghost use Rattle.std.proofs.lemmas.List.Edits.{sets};
ghost use Rattle.model.specs.Writing.{byte_writing, hex_digit, run_writing};

use rule_bytes::is_escaped;

// One byte, if there is room for it.
pub fn set_byte(out: &mut [u8], at: usize, byte: u8)
    ensures { out.new ≡ set out.old at byte }
{
    if at < out.len() {
        out[at] = byte;
    }
}

// An upper-case digit.
fn hex_digit(d: u8) -> u8
    requires { d < 16 }
    ensures { result ≡ hex_digit d }
{
    if d < 10 { b'0' + d } else { b'A' + (d - 10) }
}

// "plain and not `-`, itself; a sign or `-`, with `\` before it; else `\x` and two upper-case digits"; and the place after it
pub fn write_byte(out: &mut [u8], at: usize, byte: u8) -> usize
    requires { at < 2 ^ 33 }
    ensures place { result ≡ at + length (byte_writing byte) }
    ensures written { out.new ≡ sets out.old at (byte_writing byte) }
{
    if is_escaped(byte) {
        set_byte(out, at, b'\\');
        set_byte(out, at + 1, byte);
        return at + 2;
    }
    if byte.is_ascii_graphic() {
        set_byte(out, at, byte);
        return at + 1;
    }
    set_byte(out, at, b'\\');
    set_byte(out, at + 1, b'x');
    set_byte(out, at + 2, hex_digit(byte / 16));
    set_byte(out, at + 3, hex_digit(byte % 16));
    at + 4
}

// "a run of one as the byte, a longer run as `lo-hi`"
fn write_run(out: &mut [u8], at: usize, lo: u8, hi: u8) -> usize
    requires { at < 2 ^ 32 }
    ensures place { result ≡ at + length (run_writing lo hi) }
    ensures written { out.new ≡ sets out.old at (run_writing lo hi) }
{
    let p = write_byte(out, at, lo);
    if lo == hi {
        return p;
    }
    set_byte(out, p, b'-');
    write_byte(out, p + 1, hi)
}
