// What the operations answer: a `Result` of what they give by value, or a refusal. The numbers of the documents' tables stand here, and nowhere else in code.

#![tactic(auto)]

ghost use Rattle.std.specs.Prelude.{◌≡◌};
ghost use Rattle.answers.specs.Answers.{number_of, place_of};

// In the order of their numbers: document 01's, those of a watch, and those of a proposal. What is no rule comes with its place (document 02, Wish 2).
#[derive(Clone, Copy)]
pub enum Refusal {
    RuleTooLong,
    NotARule(usize),
    TooManyStates,
    TooDeep,
    NoRoomForImage,
    NotAnImage,
    TextTooLong,
    NoRoomForWriting,
    NotAMask,
    PlaceTooFar,
    NotAnEnd,
    NoRoomForStates,
}

// What the proposer gives: the start, and how many states.
#[derive(Clone, Copy)]
pub struct Proposed {
    pub start: usize,
    pub count: usize,
}

impl Refusal {
    // The number of a refusal, the documents' and C's: the one place in code that has the numbers.
    pub fn number(self) -> u64
        ensures { result ≡ number_of self }
    {
        match self {
            Refusal::RuleTooLong => 1,
            Refusal::NotARule(_) => 2,
            Refusal::TooManyStates => 3,
            Refusal::TooDeep => 4,
            Refusal::NoRoomForImage => 5,
            Refusal::NotAnImage => 6,
            Refusal::TextTooLong => 7,
            Refusal::NoRoomForWriting => 8,
            Refusal::NotAMask => 9,
            Refusal::PlaceTooFar => 10,
            Refusal::NotAnEnd => 16,
            Refusal::NoRoomForStates => 17,
        }
    }

    // The place of a refusal: only what is no rule has one.
    pub fn place(self) -> usize
        ensures { result ≡ place_of self }
    {
        match self {
            Refusal::NotARule(place) => place,
            _ => 0,
        }
    }
}
