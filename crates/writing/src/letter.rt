// A letter: the class of the state that it leads to, and the repeat sign.
ghost use Rattle.std.specs.Prelude.{◌≡◌, ◌++◌, ◌+◌, ◌%◌, ◌^◌, ◌<◌, length};
ghost use Rattle.std.proofs.lemmas.List.Edits.{sets};
ghost use Rattle.model.specs.Writing.{class_writing, repeat_writing};
ghost use Rattle.image_classes.specs.Classes.{class_in};
ghost use Rattle.tokens.specs.Tokens.{repeat_of};
ghost use Rattle.writing.specs.Work.{bytes_if};

use image_classes::class_of;
use tokens::token::Repeat;
use writing_letters::classes::write_class;
use writing_letters::set_byte;

// A sign, if there is one.
pub fn write_if(out: &mut [u8], at: usize, sign: Option<u8>) -> usize
    requires { at < 2 ^ 32 }
    ensures place { result ≡ at + length (bytes_if sign) }
    ensures written { out.new ≡ sets out.old at (bytes_if sign) }
{
    match sign {
        None => at,
        Some(byte) => {
            set_byte(out, at, byte);
            at + 1
        }
    }
}

// The sign of a letter, if it has one.
fn write_sign(out: &mut [u8], at: usize, repeat: Repeat) -> usize
    requires { at < 2 ^ 32 }
    ensures place { result ≡ at + length (repeat_writing (repeat_of repeat)) }
    ensures written { out.new ≡ sets out.old at (repeat_writing (repeat_of repeat)) }
{
    let sign = match repeat {
        Repeat::Once => None,
        Repeat::Option => Some(b'?'),
        Repeat::Star => Some(b'*'),
        Repeat::Plus => Some(b'+'),
    };
    write_if(out, at, sign)
}

// A letter to a state of the column at hand.
pub fn write_letter(
    classes: &[u64; 256],
    repeat: Repeat,
    state: usize,
    out: &mut [u8],
    at: usize,
) -> usize
    requires { at < 2 ^ 30 }
    ensures place { result ≡ at + length (class_writing (class_in classes.now (state % 64)) ++ repeat_writing (repeat_of repeat)) }
    ensures written { out.new ≡ sets out.old at (class_writing (class_in classes.now (state % 64)) ++ repeat_writing (repeat_of repeat)) }
{
    let class = class_of(classes, state);
    let p = write_class(out, at, class);
    write_sign(out, p, repeat)
}
