// What the desk program writes (document 01, "The desk program"), from the bytes of its two files: every check is made before the first byte is written.

#![tactic(auto)]

ghost use Rattle.std.specs.Prelude.{◌≤◌, length, take};
ghost use Rattle.program_lines.specs.Lines.{Reports};
ghost use Rattle.program_lines.specs.Work.{PutAt};
ghost use Rattle.desk_report.specs.Desk.{DeskSays, found_text, TriedSays};

use answers::Refusal;
use program_lines::{put_ends, put_line, put_refusal, put_total};
use watcher::{build, match_ends, read_back};

// The three parts of the text, once no check is left that could refuse.
fn put_found(text: &mut [u8], writing: &[u8], total: usize, ends: &[u32]) -> usize
    requires { (length writing.now ≤ 16384) × (length ends.now ≤ 1000) }
    ensures { PutAt (found_text writing.now total (take total ends.now)) text.old 0 result text.new }
{
    let first = put_line(text, 0, writing);
    let second = put_total(text, first, total as u64);
    put_ends(text, second, ends, total)
}

// Build with room for the longest image, read back into 16,384 bytes, match with room for 1,000 ends; and then the text. The first refusal ends it, and nothing
// is written.
fn try_report(rule: &[u8], journal: &[u8], text: &mut [u8]) -> Result<usize, Refusal>
    ensures { TriedSays rule.now journal.now text.old result text.new }
{
    let mut words = [0u64; 4834];
    let built = build(rule, &mut words)?;
    let image = &words[..built];
    let mut bytes = [0u8; 16384];
    let written = read_back(image, &mut bytes)?;
    let writing = &bytes[..written];
    let mut ends = [0u32; 1000];
    let total = match_ends(image, journal, &mut ends)?;
    Ok(put_found(text, writing, total, &ends))
}

// The whole text for a rule and a journal: its length, and what fits of it in the bytes lent. No text is longer than 22,397 bytes.
pub fn report(rule: &[u8], journal: &[u8], text: &mut [u8]) -> usize
    ensures { Reports (DeskSays rule.now journal.now) text.old result text.new }
{
    match try_report(rule, journal, text) {
        Ok(length) => length,
        Err(refusal) => put_refusal(text, refusal),
    }
}
