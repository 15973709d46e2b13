// The classes of an image's letters: for each state the bytes that lead to it. A mask of the letters has a bit for each state that its byte leads to. They are
// gone over by columns, one word of every mask, and in a word only the bits that are set are looked at. Whoever goes from state to state keeps the classes
// of one column, 64 states.

#![tactic(auto)]

ghost use Rattle.std.specs.Prelude.{◌≡◌, ◌-◌, ◌/◌, ◌%◌, ◌<◌};
ghost use Rattle.image_classes.specs.Classes.{ColumnOf, four_of, Table, With};

use image_sections::Image;

// A byte put into the classes of those states that its word has.
fn put_word(classes: &mut [u64; 256], byte: usize, word: u64)
    requires { (byte < 256) × Table classes.old }
    ensures { With classes.old byte word classes.new }
{
    let mut rest = word;
    // No for: only the bits that are set are gone over.
    while rest != 0 {
        let k = rest.trailing_zeros();
        let place = 4 * k as usize + byte / 64;
        classes[place] |= 1 << (byte % 64);
        rest &= !(1 << k);
    }
}

// The classes of a column's states, four words for each: byte b is bit b mod 64 of word b / 64.
pub fn put_column(image: &Image, column: usize, classes: &mut [u64; 256])
    requires { column < image.now.sections.width }
    ensures { ColumnOf image.now.words.now image.now.sections.width column classes.new }
{
    *classes = [0u64; 256];
    let words = image.words;
    let width = image.sections.width;
    let first = image.sections.letters + column;
    for byte in 0..256 {
        put_word(classes, byte, words[first + width * byte]);
    }
}

// The column of a state, where that of the state before it is at hand. The table is lent beside the image, not kept in one record with it: as the result of
// a function it would stand on the stack twice, and a read back go down 15,400 bytes for 12,800, where its callers provide 16 KiB (include/lavumbishe.h).
pub fn move_on(image: &Image, state: usize, classes: &mut [u64; 256])
    requires { (state < image.now.sections.states) × ColumnOf image.now.words.now image.now.sections.width ((state - 1) / 64) classes.old }
    ensures { ColumnOf image.now.words.now image.now.sections.width (state / 64) classes.new }
{
    if state % 64 == 0 {
        put_column(image, state / 64, classes);
    }
}

// The class of a state of the column.
pub fn class_of(classes: &[u64; 256], state: usize) -> [u64; 4]
    ensures { result ≡ four_of classes.now (state % 64) }
{
    let first = 4 * (state % 64);
    let mut class = [0u64; 4];
    class.copy_from_slice(&classes[first..first + 4]);
    class
}
