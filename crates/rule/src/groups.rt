// Groups: alternatives made one item. "A bracketed group may take `?`. The tree keeps it as a union .. But a `?` on a group that can already be empty
// is dropped" (document 02, Wish 3). "A bracketed group may take `*` .. `+` on a group is the group and then its `*`" (Wish 12).
ghost use Rattle.std.specs.Prelude.{◌≡◌, ◌≤◌, drop, length};
ghost use Rattle.rule_bytes.specs.Places.{Took};
ghost use Rattle.model.specs.Models.Reader.{read_mark};
ghost use Rattle.model.specs.Models.Tokens.{shown as shownOf};
ghost use Rattle.model.specs.Tree.{once, unmarked};
ghost use Rattle.tokens.specs.Tokens.{mark_of, repeat_of};
ghost use Rattle.rule.specs.Groups.{Closes, Groups, Wholes};
ghost use Rattle.rule.specs.Tokens.{Numbered};

use crate::parts::{Alternatives, Part};
use crate::rows::{double, enclose};
use rule_bytes::{Unreadable, byte_at};
use tokens::token::{Mark, Repeat, can_skip};

// The sign of a group, and the place after it.
#[derive(Clone, Copy)]
struct GroupSign {
    repeat: Repeat,
    place: usize,
}

// The sign of a group, if it has one that a group may take; any other byte is left to those who read on.
fn read_mark(rule: &[u8], at: usize) -> GroupSign
    requires { (at ≤ length rule.now) × (length rule.now ≤ 1024) }
    ensures { Took rule.now (read_mark (drop at rule.now)) (repeat_of result.repeat) result.place }
{
    let (repeat, place) = match byte_at(rule, at) {
        b'?' => (Repeat::Option, at + 1),
        b'*' => (Repeat::Star, at + 1),
        b'+' => (Repeat::Plus, at + 1),
        _ => (Repeat::Once, at),
    };
    GroupSign { repeat, place }
}

// What the close of a union without a mark of its own shows: whether an alternative can be empty.
fn shown(empty: bool) -> Mark
    ensures { mark_of result ≡ shownOf unmarked empty }
{
    if empty {
        Mark::Optional
    } else {
        Mark::Unmarked
    }
}

// The tokens n to `next` less 1 are those of one alternative or of several, of which some can be empty or none: several are a union, and of one the
// brackets vanish. The number of the token after them.
fn unite(tokens: &mut [u64; 2555], n: usize, next: usize, several: bool, empty: bool) -> usize
    requires { Numbered n next }
    ensures count { Numbered n result }
    ensures stands { Groups n next several empty once tokens.old tokens.new result }
{
    if several {
        return enclose(tokens, n, next, shown(empty));
    }
    next
}

// The same with the sign of a group.
fn group(
    tokens: &mut [u64; 2555],
    n: usize,
    next: usize,
    several: bool,
    empty: bool,
    repeat: Repeat,
) -> usize
    requires { Numbered n next }
    ensures { Groups n next several empty (repeat_of repeat) tokens.old tokens.new result }
{
    match repeat {
        Repeat::Once => unite(tokens, n, next, several, empty),
        Repeat::Option => {
            if empty {
                return unite(tokens, n, next, several, empty);
            }
            enclose(tokens, n, next, Mark::Optional)
        }
        Repeat::Star => {
            let body = unite(tokens, n, next, several, empty);
            enclose(tokens, n, body, Mark::Starred)
        }
        Repeat::Plus => {
            let end = unite(tokens, n, next, several, empty);
            let twice = double(tokens, n, end);
            enclose(tokens, end, twice, Mark::Starred)
        }
    }
}

// The alternatives of a whole rule as one item.
pub fn bracket(tokens: &mut [u64; 2555], alternatives: Alternatives) -> Part
    requires { Numbered 0 alternatives.next }
    ensures { Wholes alternatives tokens.old tokens.new result }
{
    let Alternatives {
        place,
        next,
        several,
        empty,
    } = alternatives;
    Part {
        place,
        next: unite(tokens, 0, next, several, empty),
        empty,
    }
}

// Bracketed alternatives, before their `)`.
pub fn close_item(
    rule: &[u8],
    tokens: &mut [u64; 2555],
    n: usize,
    alternatives: Alternatives,
) -> Result<Part, Unreadable>
    requires { (length rule.now ≤ 1024) × Numbered n alternatives.next }
    ensures { Closes rule.now n alternatives tokens.old tokens.new result }
{
    let Alternatives {
        place,
        next,
        several,
        empty,
    } = alternatives;
    if byte_at(rule, place) != b')' {
        return Err(Unreadable(place));
    }
    let sign = read_mark(rule, place + 1);
    Ok(Part {
        place: sign.place,
        next: group(tokens, n, next, several, empty, sign.repeat),
        empty: can_skip(sign.repeat) | empty,
    })
}
