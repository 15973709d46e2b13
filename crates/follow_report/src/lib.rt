// What the program `follow` writes (document 02, Wish 1), from the bytes of its rule and of the stretches in which its journal arrives: at the opening, for
// each stretch, and at the end.

#![tactic(auto)]

ghost use Rattle.std.specs.Prelude.{◌≡◌, ◌≤◌, length, take};
ghost use Rattle.program_lines.specs.Lines.{Reports, total_text};
ghost use Rattle.follow_report.specs.Follow.{Begins, Hears, Opens};
ghost use Rattle.follow_report.specs.Work.{Goes, kept_in, next_in, Stops};

use answers::Refusal;
use image_sections::mask_words;
use program_lines::{put_ends, put_refusal, put_total};
use watcher::{begin, build, step};

// What is kept between stretches: a mask, of whose words the image's first W count, the place, and how many ends were found. The image lies beside it.
#[derive(Clone, Copy)]
pub struct Watching {
    pub mask: [u64; 8],
    pub place: u64,
    pub total: u64,
}

// How long a text is, and with what the program goes on after it, if it does.
#[derive(Clone, Copy)]
pub struct Said {
    pub length: usize,
    pub watching: Option<Watching>,
}

// The same, with the number of the image's words.
#[derive(Clone, Copy)]
pub struct Opened {
    pub words: usize,
    pub said: Said,
}

// A refusal: nothing is kept, and nothing comes after.
fn stop(text: &mut [u8], refusal: Refusal) -> Said
    ensures { Stops refusal text.old result text.new }
{
    let length = put_refusal(text, refusal);
    Said {
        length,
        watching: None,
    }
}

// A line for each end, and the program goes on.
fn go_on(text: &mut [u8], ends: &[u32], count: usize, watching: Watching) -> Said
    requires { length ends.now ≤ 4096 }
    ensures { Goes ends.now count watching text.old result text.new }
{
    let length = put_ends(text, 0, ends, count);
    Said {
        length,
        watching: Some(watching),
    }
}

// A watch begun, before any byte.
fn start(image: &[u64], text: &mut [u8]) -> Said
    ensures { Reports (Begins image.now (next_in image.now result)) text.old result.length text.new }
{
    let mut mask = [0u64; 8];
    let mut place = 0u64;
    let mut ends = [0u32; 1];
    let width = mask_words(image);
    match begin(image, &mut mask[..width], &mut place, &mut ends) {
        Err(refusal) => stop(text, refusal),
        Ok(count) => {
            let total = count as u64;
            go_on(text, &ends, count, Watching { mask, place, total })
        }
    }
}

// Opening: the image into the words lent, and a watch begun, before anything of the journal is read.
pub fn open(rule: &[u8], image: &mut [u64], text: &mut [u8]) -> Opened
    ensures { Reports (Opens rule.now image.old result.words image.new (next_in (take result.words image.new) result.said))
        text.old result.said.length text.new }
{
    match build(rule, image) {
        Err(refusal) => Opened {
            words: 0,
            said: stop(text, refusal),
        },
        Ok(words) => Opened {
            words,
            said: start(&image[..words], text),
        },
    }
}

// One stretch: a line for each end in it.
pub fn hear(image: &[u64], watching: Watching, stretch: &[u8], text: &mut [u8]) -> Said
    ensures { Reports (Hears image.now (kept_in image.now watching) stretch.now (next_in image.now result))
        text.old result.length text.new }
{
    let mut mask = watching.mask;
    let mut place = watching.place;
    let mut ends = [0u32; 4096];
    let width = mask_words(image);
    match step(image, &mut mask[..width], &mut place, stretch, &mut ends) {
        Err(refusal) => stop(text, refusal),
        Ok(count) => {
            let total = watching.total.wrapping_add(count as u64);
            go_on(text, &ends, count, Watching { mask, place, total })
        }
    }
}

// The end of the journal: how many ends there were.
pub fn close(watching: Watching, text: &mut [u8]) -> usize
    ensures { Reports (λ t. t ≡ total_text watching.total) text.old result text.new }
{
    put_total(text, 0, watching.total)
}
