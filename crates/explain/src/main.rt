// The program `explain` (document 02, Wish 9): which bytes of a journal did it. Reads the files `rule` and `journal` of the current folder, and from standard
// input either the line `place N`, for which it writes a record of the proposal, or such a record, of which it says `yes` or `no`.

#![tactic(auto)]

mod reading;
mod record;

ghost use Rattle.std.specs.Prelude.{◌≡◌, ◌+◌, ◌≤◌, length};

use crate::reading::{Claim, Unreadable, read_line, read_record};
use crate::record::{put_record, put_unreadable};
use answers::Proposed;
use program_files::{read_file, read_full};
use program_lines::{put_line, put_refusal};
use std::io;
use std::io::Read;
use watcher::{build, check_spelling, propose_spelling};

// The record for a place: our own proposal, or why there is none.
fn explain(image: &[u64], journal: &[u8], end: usize, text: &mut [u8]) -> usize
    ensures { result ≤ 2162687 }
{
    let mut states = [0u32; 65535];
    match propose_spelling(image, journal, end, &mut states) {
        Err(refusal) => put_refusal(text, refusal),
        Ok(Proposed { start, count }) => put_record(
            text,
            &journal[start..end],
            start,
            end,
            &states[..count],
        ),
    }
}

// A proposal that is right gets `yes` if the record is, byte for byte, what we would write of it: so the places and bytes that it shows are the journal's too.
fn confirm(
    record: &[u8],
    stretch: &[u8],
    start: usize,
    end: usize,
    states: &[u32],
    text: &mut [u8],
) -> usize
    requires end_bound { (end ≤ 65535) × (start + length stretch.now ≤ 65535) × (length states.now ≡ length stretch.now) }
    requires in_bounds { 2162687 ≤ length text.old }
    ensures { result ≤ 2162687 }
{
    let length = put_record(text, stretch, start, end, states);
    if record == &text[..length] {
        put_line(text, 0, b"yes")
    } else {
        put_line(text, 0, b"no")
    }
}

// What is said of the proposal that a record holds.
fn judge_proposal(
    image: &[u64],
    journal: &[u8],
    record: &[u8],
    start: usize,
    end: usize,
    states: &[u32],
    text: &mut [u8],
) -> usize
    requires { 2162687 ≤ length text.old }
    ensures { result ≤ 2162687 }
{
    match check_spelling(image, journal, start, end, states) {
        Err(refusal) => put_refusal(text, refusal),
        Ok(false) => put_line(text, 0, b"no"),
        Ok(true) => confirm(record, &journal[start..end], start, end, states, text),
    }
}

// What is said of a record: any tool may have made it.
fn judge(image: &[u64], journal: &[u8], record: &[u8], text: &mut [u8]) -> usize
    requires { 2162687 ≤ length text.old }
    ensures { result ≤ 2162687 }
{
    let mut states = [0u32; 65535];
    match read_record(record, &mut states) {
        Err(Unreadable { line }) => put_unreadable(text, line),
        Ok(Claim { start, end, count }) => {
            judge_proposal(image, journal, record, start, end, &states[..count], text)
        }
    }
}

// A place to be explained, or else a record to be judged.
fn respond(image: &[u64], journal: &[u8], request: &[u8], text: &mut [u8]) -> usize
    requires { 2162687 ≤ length text.old }
    ensures { result ≤ 2162687 }
{
    match read_line(request, b"place ") {
        Some(asked) => explain(image, journal, asked.number, text),
        None => judge(image, journal, request, text),
    }
}

// The rule's refusals come first, as in the desk program.
fn answer(rule: &[u8], journal: &[u8], request: &[u8], text: &mut [u8]) -> usize
    requires { 2162687 ≤ length text.old }
    ensures { result ≤ 2162687 }
{
    let mut image = [0u64; 4834];
    match build(rule, &mut image) {
        Err(refusal) => put_refusal(text, refusal),
        Ok(length) => respond(&image[..length], journal, request, text),
    }
}

// A record has at most 2,162,687 bytes: two lines of at most 32 bytes together, and 65,535 of at most 33.
fn reply(rt: &impl Print, rule: &[u8], journal: &[u8], request: &[u8]) -> io::Result<()> {
    let mut text = [0u8; 2162687];
    let length = answer(rule, journal, request, &mut text);
    rt.write_all(&text[..length])
}

// One byte more than a record has is read, so a request that is cut is no record.
fn hear(rt: &impl Print, requests: &mut impl Read, rule: &[u8], journal: &[u8]) -> io::Result<()> {
    let mut request = [0u8; 2162688];
    let length = read_full(requests, &mut request);
    reply(rt, rule, journal, &request[..length])
}

// Of rule and journal as much is read as the desk program reads.
fn main(rt: HostRuntime) -> io::Result<()> {
    let mut rule = [0u8; 1025];
    let rule_length = read_file(&rt, b"rule", &mut rule);
    let mut journal = [0u8; 65536];
    let journal_length = read_file(&rt, b"journal", &mut journal);
    hear(
        &rt,
        &mut rt.stdin(),
        &rule[..rule_length],
        &journal[..journal_length],
    )
}
