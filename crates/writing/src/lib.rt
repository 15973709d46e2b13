// Read back: from an image to its tree's plain writing (document 01, "Plain writing"). `own` finds which unions have a `?`, where the masks show an edge
// only. Then the same functions first find how long the writing is, with no room lent, and then write it: what would lie past the room is counted and
// not written.

#![tactic(auto)]

mod letter;
mod own;
mod ranges;

ghost use Rattle.std.specs.Prelude.{◌≡◌, ◌<◌};
ghost use Rattle.model.specs.Answers.{ReadBackSays};
ghost use Rattle.answers.specs.Answers.{answered};
ghost use Rattle.writing.specs.Work.{bytes_after, range_text, written_if};

use crate::own::own_marks;
use crate::ranges::write_tokens;
use answers::Refusal;
use image_check::check;
use image_sections::Image;
use tokens_masks::Tape;

// The writing of an image, from its tape with each union's own mark. Not inlined, so that its column of classes is off the stack while the image is checked.
#[inline(never)]
fn write(image: &Image, tape: Tape, bytes: &mut [u8]) -> Result<usize, Refusal>
    requires { tape.length < image.now.sections.states }
    ensures answer { result ≡ written_if (range_text image.now.words.now image.now.sections.width tape.kinds tape.length 0) bytes.old }
    ensures written { bytes.new ≡ bytes_after (range_text image.now.words.now image.now.sections.width tape.kinds tape.length 0) bytes.old }
{
    let size = write_tokens(image, &tape.kinds, tape.length, &mut bytes[0..0]);
    if bytes.len() < size {
        return Err(Refusal::NoRoomForWriting);
    }
    write_tokens(image, &tape.kinds, tape.length, bytes);
    Ok(size)
}

// The refusals are 6 and 8; done gives the writing's length.
pub fn read_back(words: &[u64], bytes: &mut [u8]) -> Result<usize, Refusal>
    ensures { ReadBackSays words.now bytes.old (answered result bytes.new) }
{
    let Some(checked) = check(words) else {
        return Err(Refusal::NotAnImage);
    };
    let own = own_marks(checked.tape);
    write(&checked.image, own, bytes)
}
