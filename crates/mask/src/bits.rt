// One bit, and whether two rows are the same: of plain rows of eight words, as tables of masks hold them, and of masks.
// A place at or past 512 is in no row: to set it changes nothing, and its bit is clear.
ghost use Rattle.std.specs.Prelude.{◌≡◌};
ghost use Rattle.model.specs.Bits.{bit};
ghost use Rattle.model.specs.Models.Verdict.{same_words};
ghost use Rattle.model.specs.Models.Words.{put_bit, value};

use crate::Mask;

// The row with bit i set.
pub fn row_with_bit(mut row: [u64; 8], i: usize) -> [u64; 8]
    ensures { result ≡ put_bit row i }
{
    if i < 512 {
        row[i / 64] |= 1 << (i % 64);
    }
    row
}

// Whether bit i is set.
pub fn row_has_bit(row: [u64; 8], i: usize) -> bool
    ensures { result ≡ bit (value row) i }
{
    i < 512 && (row[i / 64] >> (i % 64)) & 1 == 1
}

// Whether all words are the same.
pub fn same_rows(a: [u64; 8], b: [u64; 8]) -> bool
    ensures { result ≡ same_words a b }
{
    a == b
}

pub fn with_bit(a: Mask, i: usize) -> Mask
    ensures { result.words ≡ put_bit a.words i }
{
    Mask {
        words: row_with_bit(a.words, i),
    }
}

pub fn has_bit(a: Mask, i: usize) -> bool
    ensures { result ≡ bit (value a.words) i }
{
    row_has_bit(a.words, i)
}
