// Tokens, and what their signs say: may be left out, may be taken again.
ghost use Rattle.std.specs.Prelude.{◌≡◌};
ghost use Rattle.model.specs.Tree.{can_loop, can_omit, can_return, can_skip};
ghost use Rattle.tokens.specs.Tokens.{mark_of, repeat_of};

// How often a letter is taken: once, `?`, `*`, `+`.
#[derive(Clone, Copy)]
pub enum Repeat {
    Once,
    Option,
    Star,
    Plus,
}

// What a group keeps after its `)`: nothing, `?` or `*`. A close on a tape shows by it whether an edge leads over its union, and whether one leads back.
#[derive(Clone, Copy)]
pub enum Mark {
    Unmarked,
    Optional,
    Starred,
}

// A letter leads from a state to the next, an open from a union's start to its first alternative's start, a bar from an alternative's end to the
// next one's start, a close from the last alternative's end to the union's end. A letter's class is not on the tape.
#[derive(Clone, Copy)]
pub enum Token {
    Letter(Repeat),
    Open,
    Bar,
    Close(Mark),
}

// A letter that may be left out.
pub fn can_skip(repeat: Repeat) -> bool
    ensures { result ≡ can_skip (repeat_of repeat) }
{
    matches!(repeat, Repeat::Option | Repeat::Star)
}

// A letter that may be taken again.
pub fn can_loop(repeat: Repeat) -> bool
    ensures { result ≡ can_loop (repeat_of repeat) }
{
    matches!(repeat, Repeat::Star | Repeat::Plus)
}

// A union that may be left out.
pub fn can_omit(mark: Mark) -> bool
    ensures { result ≡ can_omit (mark_of mark) }
{
    matches!(mark, Mark::Optional | Mark::Starred)
}

// A union that may be gone through again.
pub fn can_return(mark: Mark) -> bool
    ensures { result ≡ can_return (mark_of mark) }
{
    matches!(mark, Mark::Starred)
}
