// What the readers read (specs/Parts.antt).
// An item or a sequence: the place after it, the number of the token after its own, and whether it can be empty.
#[derive(Clone, Copy)]
pub struct Part {
    pub place: usize,
    pub next: usize,
    pub empty: bool,
}

// Alternatives: the place, the number, whether they are several, and whether one of them can be empty.
#[derive(Clone, Copy)]
pub struct Alternatives {
    pub place: usize,
    pub next: usize,
    pub several: bool,
    pub empty: bool,
}
