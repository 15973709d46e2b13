// Sets of bytes, word by word.
ghost use Rattle.std.specs.Prelude.{◌≡◌, ◌+◌, ◌^◌, ◌≤◌};
ghost use Rattle.std.specs.Int.Bits.{bit_or};
ghost use Rattle.model.specs.Grammar.{dot_class, span as span_of};
ghost use Rattle.rule_letters.specs.Classes.{bytes_of, below_word, span_word};

// A set of bytes: byte b is bit b mod 64 of word b / 64.
// No array of words: span, none, dot and or would write the four out all the same.
#[derive(Clone, Copy)]
pub struct Class {
    pub word0: u64,
    pub word1: u64,
    pub word2: u64,
    pub word3: u64,
}

// Of the 64 bytes from base on those below n.
fn below(n: usize, base: usize) -> u64
    requires { base ≤ 192 }
    ensures { result ≡ below_word n base }
{
    if n <= base {
        return 0;
    }
    if base + 64 <= n {
        return 0xffff_ffff_ffff_ffff;
    }
    (1 << (n - base)) - 1
}

// Of the 64 bytes from base on those from lo to hi.
fn span_word(lo: usize, hi: usize, base: usize) -> u64
    requires { (lo ≤ hi) × (hi ≤ 255) × (base ≤ 192) }
    ensures { result ≡ span_word lo hi base }
{
    below(hi + 1, base) - below(lo, base)
}

impl Class {
    // The bytes from lo to hi.
    pub fn span(lo: u8, hi: u8) -> Class
        ensures { bytes_of result ≡ span_of lo hi }
    {
        let first = lo as usize;
        let last = hi as usize;
        if last < first {
            return Class::none();
        }
        Class {
            word0: span_word(first, last, 0),
            word1: span_word(first, last, 64),
            word2: span_word(first, last, 128),
            word3: span_word(first, last, 192),
        }
    }

    // The byte b alone.
    pub fn one(b: u8) -> Class
        ensures { bytes_of result ≡ 2 ^ b }
    {
        Class::span(b, b)
    }

    // No byte.
    pub fn none() -> Class
        ensures { bytes_of result ≡ 0 }
    {
        Class {
            word0: 0,
            word1: 0,
            word2: 0,
            word3: 0,
        }
    }

    // "every byte but 10"
    pub fn dot() -> Class
        ensures { bytes_of result ≡ dot_class }
    {
        Class {
            word0: 0xffff_ffff_ffff_fbff,
            word1: 0xffff_ffff_ffff_ffff,
            word2: 0xffff_ffff_ffff_ffff,
            word3: 0xffff_ffff_ffff_ffff,
        }
    }

    // The bytes of either.
    pub fn or(self, other: Class) -> Class
        ensures { bytes_of result ≡ bit_or (bytes_of self) (bytes_of other) }
    {
        Class {
            word0: self.word0 | other.word0,
            word1: self.word1 | other.word1,
            word2: self.word2 | other.word2,
            word3: self.word3 | other.word3,
        }
    }
}
