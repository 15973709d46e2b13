// What one letter is: document 01, "The grammar". Readers go over the rule's bytes from a place on and answer what they read and the place after it,
// or the place of the first byte that cannot be read. What an answer says is defined in specs/Answers.antt.

#![tactic(auto)]

mod classes;
mod escapes;
mod letters;

pub use classes::Class;
pub use letters::read_letter;
