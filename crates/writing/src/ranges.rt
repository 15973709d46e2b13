// Ranges of states: a row of tokens, written one after another. "An alternative may itself hold unions, eight deep at most."
ghost use Rattle.std.specs.Prelude.{◌≡◌, ◌+◌, ◌-◌, ◌*◌, ◌/◌, ◌%◌, ◌^◌, ◌≤◌, ◌<◌, ◌∷◌, length as length_of};
ghost use Rattle.std.proofs.lemmas.List.Edits.{sets};
ghost use Rattle.model.specs.Bytes.{byte};
ghost use Rattle.model.specs.Writing.{mark_writing};
ghost use Rattle.image_classes.specs.Classes.{class_in, ColumnOf};
ghost use Rattle.tokens.specs.Tokens.{mark_of};
ghost use Rattle.writing.specs.Work.{range_text, token_text};

use crate::letter::{write_if, write_letter};
use image_classes::{move_on, put_column};
use image_sections::Image;
use tokens::kind::read_kind;
use tokens::token::{Mark, Token};
use writing_letters::set_byte;

// How many unions are open after a token, where `unions` are before it.
fn open_after(unions: usize, token: Token) -> usize
    requires { (1 ≤ unions) × (unions < 1000) }
    ensures { result ≤ unions + 1 }
{
    match token {
        Token::Open => unions + 1,
        Token::Close(_) => unions - 1,
        Token::Letter(_) | Token::Bar => unions,
    }
}

// The close of a union whose tokens after its open begin at `from`; `to` if there is none before it.
fn close_of(kinds: &[u8; 512], from: usize, to: usize) -> usize
    requires { (from ≤ to) × (to ≤ 511) }
    ensures { (from ≤ result) × (result ≤ to) }
{
    let mut open: usize = 1;
    for i in from..to {
        open = open_after(open, read_kind(kinds[i]));
        if open == 0 {
            return i;
        }
    }
    to
}

// A union's close, and its sign, if it has one.
fn write_close(out: &mut [u8], at: usize, mark: Mark) -> usize
    requires { at < 2 ^ 30 }
    ensures place { result ≡ at + length_of (byte ")" ∷ mark_writing (mark_of mark)) }
    ensures written { out.new ≡ sets out.old at (byte ")" ∷ mark_writing (mark_of mark)) }
{
    set_byte(out, at, b')');
    let sign = match mark {
        Mark::Unmarked => None,
        Mark::Optional => Some(b'?'),
        Mark::Starred => Some(b'*'),
    };
    write_if(out, at + 1, sign)
}

// The token before a state of the column at hand.
fn write_token(classes: &[u64; 256], token: Token, state: usize, out: &mut [u8], at: usize) -> usize
    requires { at < 2 ^ 30 }
    ensures place { result ≡ at + length_of (token_text (class_in classes.now (state % 64)) token) }
    ensures written { out.new ≡ sets out.old at (token_text (class_in classes.now (state % 64)) token) }
{
    match token {
        Token::Letter(repeat) => write_letter(classes, repeat, state, out, at),
        Token::Open => {
            set_byte(out, at, b'(');
            at + 1
        }
        Token::Bar => {
            set_byte(out, at, b'|');
            at + 1
        }
        Token::Close(mark) => write_close(out, at, mark),
    }
}

// The tokens from `from` to `to` less 1. After a union's open its alternatives are written by the same function on the inner range, which is shorter.
// The classes are those of the column of the state reached so far.
fn write_range(
    image: &Image,
    classes: &mut [u64; 256],
    kinds: &[u8; 512],
    out: &mut [u8],
    at: usize,
    from: usize,
    to: usize,
) -> usize
    requires { (from ≤ to) × (to < image.now.sections.states) × (at ≤ 4096 * from) × ColumnOf image.now.words.now image.now.sections.width (from / 64) classes.old }
    ensures place { result ≡ at + length_of (range_text image.now.words.now image.now.sections.width kinds.now (to - from) from) }
    ensures written { out.new ≡ sets out.old at (range_text image.now.words.now image.now.sections.width kinds.now (to - from) from) }
    ensures bound { result ≤ 4096 * to }
    ensures column { ColumnOf image.now.words.now image.now.sections.width (to / 64) classes.new }
{
    let mut p = at;
    let mut i = from;
    // No for: a union's inner range is passed in one turn.
    while i < to {
        move_on(image, i + 1, classes);
        let token = read_kind(kinds[i]);
        let next = write_token(classes, token, i + 1, out, p);
        if let Token::Open = token {
            let close = close_of(kinds, i + 1, to);
            let end = write_range(image, classes, kinds, out, next, i + 1, close);
            p = end;
            i = close;
        } else {
            p = next;
            i += 1;
        }
    }
    p
}

// All tokens, from the first column on.
pub fn write_tokens(image: &Image, kinds: &[u8; 512], length: usize, out: &mut [u8]) -> usize
    requires { length < image.now.sections.states }
    ensures place { result ≡ length_of (range_text image.now.words.now image.now.sections.width kinds.now length 0) }
    ensures written { out.new ≡ sets out.old 0 (range_text image.now.words.now image.now.sections.width kinds.now length 0) }
{
    let mut classes = [0u64; 256];
    put_column(image, 0, &mut classes);
    write_range(image, &mut classes, kinds, out, 0, 0, length)
}
