// The bytes of a rule: the byte at a place, and its kind, "A 256-entry table gives each byte its kind" (document 01), with the tests that the readers
// make by it.

#![tactic(auto)]

ghost use Rattle.std.specs.Prelude.{◌≡◌, ◌∷◌, get_or};
ghost use Rattle.model.specs.Bytes.{byte, digital, hexadecimal, kind, plain, signs};
ghost use Rattle.model.specs.Grammar.{bare};
ghost use Rattle.model.specs.Lists.{within};
ghost use Rattle.rule_bytes.specs.Kinds.{in_table};

use crate::Kind::{Digit, Hex, Other, Plain, Sign};

// What a byte can be in a rule. Digits are hex digits too, and both are plain bytes.
#[derive(Clone, Copy, PartialEq, Eq)]
enum Kind {
    Digit,
    Hex,
    Plain,
    Sign,
    Other,
}

// The kinds of the bytes 0 to 255. A static: a constant of enums would be written anew wherever it is looked at.
static KINDS: [Kind; 256] = [
    // 0 to 15
    Other, Other, Other, Other, Other, Other, Other, Other, Other, Other, Other, Other, Other,
    Other, Other, Other,
    // 16 to 31
    Other, Other, Other, Other, Other, Other, Other, Other, Other, Other, Other, Other, Other,
    Other, Other, Other,
    // 32 to 47: space ! " # $ % & ' ( ) * + , - . /
    Other, Plain, Plain, Plain, Plain, Plain, Plain, Plain, Sign, // (
    Sign, // )
    Sign, // *
    Sign, // +
    Plain, Plain, Sign, // .
    Plain,
    // 48 to 63: 0 1 2 3 4 5 6 7 8 9 : ; < = > ?
    Digit, Digit, Digit, Digit, Digit, Digit, Digit, Digit, Digit, Digit, Plain, Plain, Plain,
    Plain, Plain, Sign, // ?
    // 64 to 79: @ A B C D E F G H I J K L M N O
    Plain, Hex, Hex, Hex, Hex, Hex, Hex, Plain, Plain, Plain, Plain, Plain, Plain, Plain, Plain,
    Plain,
    // 80 to 95: P Q R S T U V W X Y Z [ \ ] ^ _
    Plain, Plain, Plain, Plain, Plain, Plain, Plain, Plain, Plain, Plain, Plain, Sign, // [
    Sign, // \
    Sign, // ]
    Plain, Plain,
    // 96 to 111: ` a b c d e f g h i j k l m n o
    Plain, Hex, Hex, Hex, Hex, Hex, Hex, Plain, Plain, Plain, Plain, Plain, Plain, Plain, Plain,
    Plain,
    // 112 to 127: p q r s t u v w x y z { | } ~
    Plain, Plain, Plain, Plain, Plain, Plain, Plain, Plain, Plain, Plain, Plain, Sign, // {
    Sign, // |
    Sign, // }
    Plain, Other,
    // 128 to 143
    Other, Other, Other, Other, Other, Other, Other, Other, Other, Other, Other, Other, Other,
    Other, Other, Other,
    // 144 to 159
    Other, Other, Other, Other, Other, Other, Other, Other, Other, Other, Other, Other, Other,
    Other, Other, Other,
    // 160 to 175
    Other, Other, Other, Other, Other, Other, Other, Other, Other, Other, Other, Other, Other,
    Other, Other, Other,
    // 176 to 191
    Other, Other, Other, Other, Other, Other, Other, Other, Other, Other, Other, Other, Other,
    Other, Other, Other,
    // 192 to 207
    Other, Other, Other, Other, Other, Other, Other, Other, Other, Other, Other, Other, Other,
    Other, Other, Other,
    // 208 to 223
    Other, Other, Other, Other, Other, Other, Other, Other, Other, Other, Other, Other, Other,
    Other, Other, Other,
    // 224 to 239
    Other, Other, Other, Other, Other, Other, Other, Other, Other, Other, Other, Other, Other,
    Other, Other, Other,
    // 240 to 255
    Other, Other, Other, Other, Other, Other, Other, Other, Other, Other, Other, Other, Other,
    Other, Other, Other,
];

fn kind_of(b: u8) -> Kind
    ensures { result ≡ in_table (kind b) }
{
    KINDS[b as usize]
}

pub fn is_digit(b: u8) -> bool
    ensures { result ≡ digital b }
{
    kind_of(b) == Kind::Digit
}

pub fn is_hex(b: u8) -> bool
    ensures { result ≡ hexadecimal b }
{
    matches!(kind_of(b), Kind::Digit | Kind::Hex)
}

pub fn is_plain(b: u8) -> bool
    ensures { result ≡ plain b }
{
    matches!(kind_of(b), Kind::Digit | Kind::Hex | Kind::Plain)
}

fn is_sign(b: u8) -> bool
    ensures { result ≡ within b signs }
{
    kind_of(b) == Kind::Sign
}

// A plain byte other than `-`: the bytes that stand for themselves in a class.
pub fn is_bare(b: u8) -> bool
    ensures { result ≡ bare b }
{
    b != b'-' && is_plain(b)
}

// A sign or `-`: the bytes that an escape's `\` may stand before.
pub fn is_escaped(b: u8) -> bool
    ensures { result ≡ within b (byte "-" ∷ signs) }
{
    b == b'-' || is_sign(b)
}

// The byte at a place; at the rule's end 0, which no reader takes.
pub fn byte_at(rule: &[u8], at: usize) -> u8
    ensures { result ≡ get_or rule.now at 0 }
{
    rule.get(at).copied().unwrap_or(0)
}

// The place of the first byte of a rule that cannot be read.
#[derive(Clone, Copy)]
pub struct Unreadable(pub usize);
