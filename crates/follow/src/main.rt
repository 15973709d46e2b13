// The program `follow` (document 02, Wish 1): reads the file `rule` of the current folder and then a journal from standard input as it arrives, and writes
// each end's place as soon as it is found; at the end of the journal the total.

#![tactic(auto)]

ghost use Rattle.io.specs.Counts.{IsPrefixLen};

use follow_report::{Opened, Watching, close, hear, open};
use program_files::read_file;
use std::io;
use std::io::Read;

// The bytes of one read, as many as there are by now: at the end of the journal, or where it can't be read, none.
fn read_some(journal: &mut impl Read, bytes: &mut [u8; 4096]) -> usize
    ensures { IsPrefixLen result bytes.new }
{
    journal.read(bytes).unwrap_or(0)
}

// Stretch after stretch to the end of the journal, or to a refusal, or until nobody takes what is written. A text has at most 45,056 bytes.
fn follow(
    rt: &impl Print,
    journal: &mut impl Read,
    image: &[u64],
    first: Watching,
) -> io::Result<()> {
    let mut watching = first;
    let mut stretch = [0u8; 4096];
    let mut text = [0u8; 45056];
    // No for: where the journal ends is found on the way.
    loop {
        let count = read_some(journal, &mut stretch);
        if count == 0 {
            let length = close(watching, &mut text);
            return rt.write_all(&text[..length]);
        }
        let said = hear(image, watching, &stretch[..count], &mut text);
        rt.write_all(&text[..said.length])?;
        let Some(next) = said.watching else {
            return Ok(());
        };
        watching = next;
    }
}

// No more than 1,025 bytes of the rule need be read. A text at the opening has at most 18 bytes.
fn main(rt: HostRuntime) -> io::Result<()> {
    let mut rule = [0u8; 1025];
    let rule_length = read_file(&rt, b"rule", &mut rule);
    let mut image = [0u64; 4834];
    let mut text = [0u8; 18];
    let Opened { words, said } = open(&rule[..rule_length], &mut image, &mut text);
    rt.write_all(&text[..said.length])?;
    let Some(first) = said.watching else {
        return Ok(());
    };
    follow(&rt, &mut rt.stdin(), &image[..words], first)
}
