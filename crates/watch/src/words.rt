// The words of a mask that was lent: whether they are a mask of so many states, and new ones put in their place.
ghost use Rattle.std.specs.Prelude.{◌≡◌, ◌≤◌, length, take};
ghost use Rattle.model.specs.Models.Words.{is_mask};

// "A mask with a bit at or past m, or other than W words": the last state is bit (m - 1) mod 64 of the last word, and nothing may stand above it.
pub fn is_mask(mask: &[u64], states: usize) -> bool
    requires { 1 ≤ states }
    ensures { result ≡ is_mask states mask.now }
{
    let last = states - 1;
    mask.len() == last / 64 + 1 && (mask[last / 64] >> (last % 64)) >> 1 == 0
}

// The first words of eight, as many as were lent.
pub fn put_words(mask: &mut [u64], words: [u64; 8], width: usize)
    requires { (length mask.old ≡ width) × (width ≤ 8) }
    ensures { mask.new ≡ take width words }
{
    mask.copy_from_slice(&words[..width]);
}
