// Kinds: the numbers that stand for tokens. A tape has them as bytes, and a row of tokens has each as the first of a token's five words.
// Numbers, and no enum: lay out answers for tapes of any bytes (`OnTapeSays`), and a type of nine values would ask more of whoever calls it. Functions, and no
// `From`: the numbers are of one table for two enums, which `mark_kind(mark)` says and `u8::from(mark)` would not.
ghost use Rattle.std.specs.Prelude.{◌≡◌};
ghost use Rattle.tokens.specs.Kinds.{kind_in, mark_kind, read_kind, repeat_kind};
ghost use Rattle.tokens.specs.Tokens.{mark_of, repeat_of};

use crate::token::{Mark, Repeat, Token};

// Letters, by how often they are taken.
pub const ONCE: u8 = 0;

pub const OPTION: u8 = 1;

pub const STAR: u8 = 2;

pub const PLUS: u8 = 3;

pub const OPEN: u8 = 4;

pub const BAR: u8 = 5;

// Closes, by what they show.
pub const CLOSE_UNMARKED: u8 = 6;

pub const CLOSE_OPTIONAL: u8 = 7;

pub const CLOSE_STARRED: u8 = 8;

// A letter's kind.
pub fn repeat_kind(repeat: Repeat) -> u8
    ensures { result ≡ repeat_kind (repeat_of repeat) }
{
    match repeat {
        Repeat::Once => ONCE,
        Repeat::Option => OPTION,
        Repeat::Star => STAR,
        Repeat::Plus => PLUS,
    }
}

// A close's kind.
pub fn mark_kind(mark: Mark) -> u8
    ensures { result ≡ mark_kind (mark_of mark) }
{
    match mark {
        Mark::Unmarked => CLOSE_UNMARKED,
        Mark::Optional => CLOSE_OPTIONAL,
        Mark::Starred => CLOSE_STARRED,
    }
}

// The token that a number stands for; one that is no kind is read as the last, so that any tape is a row of tokens.
pub fn read_kind(kind: u8) -> Token
    ensures { result ≡ read_kind kind }
{
    match kind {
        ONCE => Token::Letter(Repeat::Once),
        OPTION => Token::Letter(Repeat::Option),
        STAR => Token::Letter(Repeat::Star),
        PLUS => Token::Letter(Repeat::Plus),
        OPEN => Token::Open,
        BAR => Token::Bar,
        CLOSE_UNMARKED => Token::Close(Mark::Unmarked),
        CLOSE_OPTIONAL => Token::Close(Mark::Optional),
        _ => Token::Close(Mark::Starred),
    }
}

// The kind in a row's word, with the same reading of a number that is no kind.
pub fn kind_in(word: u64) -> u8
    ensures { result ≡ kind_in word }
{
    word.min(CLOSE_STARRED as u64) as u8
}
