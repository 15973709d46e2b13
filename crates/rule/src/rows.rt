// Tokens, written down as they are read: five words for each, its kind and its class. There is room for the 511 tokens between 512 states; what
// lies past them is not written, and the number of a token stops at 512: a group with `+` doubles its tokens, so there may be more than can be counted.
ghost use Rattle.std.specs.Prelude.{◌≡◌, [], ◌∷◌, ◌+◌, ◌-◌, ◌*◌, ◌≤◌, length};
ghost use Rattle.std.proofs.lemmas.List.Edits.{sets};
ghost use Rattle.model.specs.Grammar.{repeated};
ghost use Rattle.model.specs.Image.{words};
ghost use Rattle.model.specs.Models.Tokens.{an_open, tokens as tokens_of};
ghost use Rattle.rule_signs.specs.Answers.{sign_of};
ghost use Rattle.rule_letters.specs.Classes.{bytes_of, words_of};
ghost use Rattle.tokens.specs.Tokens.{mark_of};
ghost use Rattle.rule_signs.specs.Repeats.{Bounded};
ghost use Rattle.tokens.specs.Rows.{token_words};
ghost use Rattle.rule.specs.Tokens.{copied, cut, enclosed, Numbered, opened, Stands, times_words};

use rule_letters::Class;
use rule_signs::HowOften;
use tokens::kind::{ONCE, OPEN, OPTION, mark_kind, repeat_kind};
use tokens::token::Mark;

// Token n, and the number of the token after it.
pub fn put_token(tokens: &mut [u64; 2555], n: usize, kind: u8, class: Class) -> usize
    ensures count { result ≡ cut (n + 1) }
    ensures written { tokens.new ≡ sets tokens.old (5 * n) (kind ∷ words_of class) }
{
    if n >= tokens.len() / 5 {
        return 512;
    }
    let at = 5 * n;
    tokens[at] = kind as u64;
    tokens[at + 1] = class.word0;
    tokens[at + 2] = class.word1;
    tokens[at + 3] = class.word2;
    tokens[at + 4] = class.word3;
    n + 1
}

// Token n, a union's open, bar or close: one that has no class.
pub fn put_union(tokens: &mut [u64; 2555], n: usize, kind: u8) -> usize
    ensures count { result ≡ cut (n + 1) }
    ensures written { tokens.new ≡ sets tokens.old (5 * n) (kind ∷ words 4 0) }
{
    put_token(tokens, n, kind, Class::none())
}

// The token n and those after it up to n + count - 1, all alike, and the number of the token after them.
fn put_many(tokens: &mut [u64; 2555], n: usize, count: usize, kind: u8, class: Class) -> usize
    requires { (length tokens.old ≡ 2555) × (n ≤ 512) }
    ensures count { result ≡ cut (n + count) }
    ensures written { tokens.new ≡ sets tokens.old (5 * n) (times_words count (kind ∷ words_of class)) }
{
    let mut next = n;
    for _ in 0..count {
        next = put_token(tokens, next, kind, class);
    }
    next
}

// Tokens `from` to `to` less 1 each written `by` further on.
fn shift(tokens: &mut [u64; 2555], from: usize, to: usize, by: usize)
    requires { Numbered from to × (by ≤ 512) }
    ensures { tokens.new ≡ copied tokens.old from (to - from) by }
{
    let room = tokens.len();
    let place = 5 * (from + by);
    if place < room {
        let end = (5 * to).min(room - 5 * by);
        tokens.copy_within(5 * from..end, place);
    }
}

// An open before the tokens `from` to `to` less 1.
fn insert_open(tokens: &mut [u64; 2555], from: usize, to: usize)
    requires { Numbered from to }
    ensures { tokens.new ≡ opened tokens.old from (to - from) (token_words an_open) }
{
    shift(tokens, from, to, 1);
    put_union(tokens, from, OPEN);
}

// A union's open before the tokens `from` to `to` less 1, and after them its close, which shows this mark; the number of the token after it.
// A call of its own, as `double` is: so the frames of the three readers stay small.
#[inline(never)]
pub fn enclose(tokens: &mut [u64; 2555], from: usize, to: usize, mark: Mark) -> usize
    requires { Numbered from to }
    ensures count { result ≡ cut (to + 2) }
    ensures written { tokens.new ≡ enclosed tokens.old from to (mark_of mark) }
{
    insert_open(tokens, from, to);
    put_union(tokens, to + 1, mark_kind(mark))
}

// The tokens `from` to `to` less 1 once more, after them; the number of the token after those.
#[inline(never)]
pub fn double(tokens: &mut [u64; 2555], from: usize, to: usize) -> usize
    requires { Numbered from to }
    ensures count { result ≡ cut (to + (to - from)) }
    ensures written { tokens.new ≡ copied tokens.old from (to - from) (to - from) }
{
    let count = to - from;
    shift(tokens, from, to, count);
    (to + count).min(512)
}

// A letter with its repeat sign, from token n on, and the number of the token after it.
pub fn put_letter(tokens: &mut [u64; 2555], n: usize, class: Class, how_often: HowOften) -> usize
    requires { (length tokens.old ≡ 2555) × (n ≤ 512) × Bounded (sign_of how_often) }
    ensures { Stands tokens.old tokens.new n result (tokens_of (repeated (bytes_of class) (sign_of how_often)) []) }
{
    match how_often {
        HowOften::Plainly(repeat) => put_token(tokens, n, repeat_kind(repeat), class),
        HowOften::Times(x, y) => {
            let next = put_many(tokens, n, y - x, OPTION, class);
            put_many(tokens, next, x, ONCE, class)
        }
    }
}
