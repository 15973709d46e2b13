// Rules read: document 01, "The grammar". Readers go over the rule's bytes from a place on, letter by letter (crate rule_letters), and answer the place
// after what they read, or the place of the first byte that cannot be read. What an answer says is defined in specs/Parts.antt.

#![tactic(auto)]

ghost use Rattle.std.specs.Prelude.{◌≡◌};
ghost use Rattle.rule.specs.Says.{ReadSays, states_of};

mod groups;
mod parts;
mod readers;
mod rows;

use crate::groups::bracket;
use crate::parts::Part;
use crate::readers::read_alternatives;
use answers::Refusal;

// The tree of a rule: how many states it has, and its tokens, five words for each, with 0 after them (an array and a number: fixed memory, no heap).
#[derive(Clone, Copy)]
pub struct Tree {
    pub states: usize,
    pub tokens: [u64; 2555],
}

// How many states a rule's tree has, by its alternatives, read as one item, and the rule's length: refused with 2 and its place, or 3 (document 01,
// "Numbers given back"). Bytes after the alternatives are refused where these end: no rule goes on there.
fn count_states(whole: Part, length: usize) -> Result<usize, Refusal>
    ensures { result ≡ states_of whole length }
{
    if whole.place < length {
        return Err(Refusal::NotARule(whole.place));
    }
    if whole.next > 511 {
        return Err(Refusal::TooManyStates);
    }
    Ok(whole.next + 1)
}

// A rule, from its first byte to its last.
pub fn read_rule(rule: &[u8]) -> Result<Tree, Refusal>
    ensures { ReadSays rule.now result }
{
    if rule.len() > 1024 {
        return Err(Refusal::RuleTooLong);
    }
    let mut tokens = [0; 2555];
    let read = read_alternatives(rule, 0, &mut tokens, 0);
    let alternatives = read.map_err(|e| Refusal::NotARule(e.0))?;
    let whole = bracket(&mut tokens, alternatives);
    let states = count_states(whole, rule.len())?;
    Ok(Tree { states, tokens })
}
