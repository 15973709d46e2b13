// The masks of bytes: the states that a byte's letters lead to, and those of them with a loop. They are written where they will stand:
// the bytes of a word of a class are 64 rows, which begin empty and get their states token by token.
ghost use Rattle.std.specs.Prelude.{◌≡◌, ◌+◌, ◌-◌, ◌*◌, ◌≤◌, ◌<◌, length as length_of};
ghost use Rattle.std.proofs.lemmas.List.Edits.{sets};
ghost use Rattle.image.specs.Work.{both_part, both_row, letters_part, quarter_part, with_state};

// The state's bit in the rows of those bytes that the word of a class has.
fn put_state(words: &mut [u64], at: usize, width: usize, class: u64, state: usize)
    requires { (width ≤ 8) × (state < 64 * width) × (at + 64 * width ≤ length_of words.old) }
    ensures { words.new ≡ with_state 64 width class state at words.old }
{
    let one: u64 = 1 << (state % 64);
    for b in 0..64 {
        if (class >> b) & 1 == 1 {
            let place = at + width * b + state / 64;
            words[place] |= one;
        }
    }
}

// "bit i+1 where a letter edge i to i+1 takes the byte", for the bytes of one word of a class: token i leads from state i to state i + 1.
fn put_quarter(
    words: &mut [u64],
    at: usize,
    width: usize,
    tokens: &[u64; 2555],
    length: usize,
    q: usize,
)
    requires { (width ≤ 8) × (at + 64 * width ≤ length_of words.old) × (length ≤ 511) × (length < 64 * width) × (q < 4) }
    ensures { words.new ≡ sets words.old at (quarter_part width tokens.now length q) }
{
    words[at..at + 64 * width].fill(0);
    for i in 0..length {
        let class = tokens[5 * i + 1 + q];
        if class != 0 {
            put_state(words, at, width, class, i + 1);
        }
    }
}

// "letters: for bytes 0 to 255 one mask"
pub fn put_letters(words: &mut [u64], at: usize, width: usize, tokens: &[u64; 2555], length: usize)
    requires { (width ≤ 8) × (1 ≤ at) × (at + width * 256 ≤ length_of words.old) × (length ≤ 511) × (length < 64 * width) }
    ensures { words.new ≡ sets words.old (at - 1) (letters_part width tokens.now length) }
{
    words[at - 1] = (256 * width) as u64;
    for q in 0..4 {
        put_quarter(words, at + 64 * width * q, width, tokens, length, q);
    }
}

// A row written before, without the states that have no loop.
fn put_both(words: &mut [u64], from: usize, at: usize, width: usize, loops: [u64; 8])
    requires { (width ≤ 8) × (from + width ≤ at) × (at + width ≤ length_of words.old) }
    ensures { words.new ≡ sets words.old at (both_row width words.old from loops) }
{
    for j in 0..width {
        words[at + j] = words[from + j] & loops[j];
    }
}

// "repeats: likewise, the bit of each loop", from the letters' masks
pub fn put_repeats(words: &mut [u64], from: usize, at: usize, width: usize, loops: [u64; 8])
    requires { (width ≤ 8) × (from + width * 256 + 1 ≤ at) × (at + width * 256 ≤ length_of words.old) }
    ensures { words.new ≡ sets words.old (at - 1) (both_part width words.old from loops) }
{
    words[at - 1] = (256 * width) as u64;
    for b in 0..256 {
        put_both(words, from + width * b, at + width * b, width, loops);
    }
}
