// The three readers that call each other: "Alternatives hold sequences, sequences hold items, items hold alternatives" (document 01). Each writes
// the tokens of what it reads from token n on. The bytes that remain fall from call to call, so brackets may nest as deep as the rule is long.
ghost use Rattle.std.specs.Prelude.{true, ◌≡◌, ℕ, drop};
ghost use Rattle.model.specs.Edges.{seq_empty};
ghost use Rattle.model.specs.Grammar.{IsItem, IsSeq, repeated};
ghost use Rattle.model.specs.Models.Places.{free, Piece};
ghost use Rattle.model.specs.Models.Reader.{item as item_of, over, read_piece, seq};
ghost use Rattle.rule_letters.specs.Classes.{bytes_of};
ghost use Rattle.rule_signs.specs.Answers.{sign_of};
ghost use Rattle.rule.specs.Parts.{after_letter, AlternativesTell, PartSays, PartTells, Ready};

use crate::groups::close_item;
use crate::parts::{Alternatives, Part};
use crate::rows::{put_letter, put_union};
use rule_bytes::{Unreadable, byte_at};
use rule_letters::{Class, read_letter};
use rule_signs::{HowOften, read_sign};
use tokens::kind::BAR;
use tokens::token::can_skip;

// Whether a letter with this sign may be left out: `{0,y}` is options alone.
fn can_be_left_out(how_often: HowOften) -> bool
    ensures { (c : ℕ) → result ≡ seq_empty (repeated c (sign_of how_often)) }
{
    match how_often {
        HowOften::Plainly(repeat) => can_skip(repeat),
        HowOften::Times(x, _) => x == 0,
    }
}

// The repeat sign of a letter.
fn read_repeated(
    rule: &[u8],
    at: usize,
    class: Class,
    tokens: &mut [u64; 2555],
    n: usize,
) -> Result<Part, Unreadable>
    requires { Ready rule.now at tokens.old n }
    ensures { PartSays true rule.now n (after_letter (bytes_of class) (drop at rule.now)) tokens.old tokens.new result }
{
    let (how_often, place) = read_sign(rule, at)?;
    Ok(Part {
        place,
        next: put_letter(tokens, n, class, how_often),
        empty: can_be_left_out(how_often),
    })
}

// A letter with at most one repeat sign.
fn read_piece(
    rule: &[u8],
    at: usize,
    tokens: &mut [u64; 2555],
    n: usize,
) -> Result<Part, Unreadable>
    requires { Ready rule.now at tokens.old n }
    ensures { PartTells Piece free read_piece rule.now at n tokens.old tokens.new result }
{
    // No `?`: the must-fail edit place_of_the_items_start is one wrong arm of this.
    match read_letter(rule, at) {
        Ok((class, place)) => read_repeated(rule, place, class, tokens, n),
        Err(unread) => Err(unread),
    }
}

// Whether a sequence is over here: before `|`, before `)` and at the end.
fn is_over(rule: &[u8], at: usize) -> bool
    ensures { result ≡ over (drop at rule.now) }
{
    if at >= rule.len() {
        return true;
    }
    let x = rule[at];
    x == b'|' || x == b')'
}

// A letter with at most one repeat sign, or bracketed alternatives, with `?`, `*` or `+` or without.
#[cycle(read_alternatives_read_item_read_sequence)]
fn read_item(rule: &[u8], at: usize, tokens: &mut [u64; 2555], n: usize) -> Result<Part, Unreadable>
    requires { Ready rule.now at tokens.old n }
    ensures { PartTells IsItem free item_of rule.now at n tokens.old tokens.new result }
{
    if byte_at(rule, at) != b'(' {
        return read_piece(rule, at, tokens, n);
    }
    let alternatives = read_alternatives(rule, at + 1, tokens, n)?;
    close_item(rule, tokens, n, alternatives)
}

// One or more items. "An item that isn't read ends the whole reading at once."
#[cycle(read_alternatives_read_item_read_sequence)]
fn read_sequence(
    rule: &[u8],
    at: usize,
    tokens: &mut [u64; 2555],
    n: usize,
) -> Result<Part, Unreadable>
    requires { Ready rule.now at tokens.old n }
    ensures { PartTells IsSeq over seq rule.now at n tokens.old tokens.new result }
{
    let mut place = at;
    let mut next = n;
    let mut empty = true;
    // No for: the place moves on by what was read.
    loop {
        let answer = read_item(rule, place, tokens, next);
        let Ok(item) = answer else {
            return answer;
        };
        place = item.place;
        next = item.next;
        empty = empty & item.empty;
        if is_over(rule, place) {
            return Ok(Part { place, next, empty });
        }
    }
}

// One or more sequences, with `|` between them.
#[cycle(read_alternatives_read_item_read_sequence)]
pub fn read_alternatives(
    rule: &[u8],
    at: usize,
    tokens: &mut [u64; 2555],
    n: usize,
) -> Result<Alternatives, Unreadable>
    requires { Ready rule.now at tokens.old n }
    ensures { AlternativesTell rule.now at n tokens.old tokens.new result }
{
    // No `?`: the must-fail edit empty_last_alternative is one wrong arm of this.
    let first = match read_sequence(rule, at, tokens, n) {
        Ok(first) => first,
        Err(unread) => return Err(unread),
    };
    if byte_at(rule, first.place) != b'|' {
        return Ok(Alternatives {
            place: first.place,
            next: first.next,
            several: false,
            empty: first.empty,
        });
    }
    let after = put_union(tokens, first.next, BAR);
    let rest = read_alternatives(rule, first.place + 1, tokens, after)?;
    Ok(Alternatives {
        several: true,
        empty: first.empty | rest.empty,
        ..rest
    })
}
