// Each union's own mark: a close shows whether an edge leads over its union, and that edge is a `?` only where no alternative can be empty
// (document 02, Wish 3: "a `?` on a group that can already be empty is dropped before the tree is made"). A `*` is shown by a back edge, and stays.
ghost use Rattle.std.specs.Prelude.{◌≡◌, T};
ghost use Rattle.model.specs.Models.LayOut.{own};
ghost use Rattle.tokens.specs.Kinds.{read_kind};
ghost use Rattle.tokens.specs.Tokens.{token_of};
ghost use Rattle.tokens_masks.specs.Tapes.{is_tree};
ghost use Rattle.writing.specs.Work.{OwnMarks};

use tokens::kind::{CLOSE_OPTIONAL, CLOSE_UNMARKED, read_kind};
use tokens::{begin_scan, innermost, no_frame, step_over};
use tokens_masks::Tape;

// The kind of a token with its union's own mark: where an alternative can be empty, the edge over the union is that alternative's and no `?`.
fn own_kind(kind: u8, empty: bool) -> u8
    ensures { token_of (read_kind result) ≡ own (token_of (read_kind kind)) empty }
{
    if (kind == CLOSE_OPTIONAL) & empty {
        CLOSE_UNMARKED
    } else {
        kind
    }
}

// A tree's tape, each close with its union's own mark: the scan knows at a close whether an alternative can be empty.
// Not inlined, so that its frames are off the stack while the image is checked.
#[inline(never)]
pub fn own_marks(tape: Tape) -> Tape
    requires { T (is_tree tape) }
    ensures { OwnMarks tape result }
{
    let mut kinds = [0u8; 512];
    let mut frames = [no_frame(); 9];
    let mut scan = begin_scan();
    for i in 0..tape.length {
        let kind = tape.kinds[i];
        let frame = frames[innermost(scan.depth)];
        kinds[i] = own_kind(kind, frame.empty_before | scan.can_be_empty);
        let next = step_over(scan, frame, read_kind(kind));
        frames[next.place] = next.frame;
        scan = next.scan;
    }
    Tape { kinds, ..tape }
}
