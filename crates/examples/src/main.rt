// The examples of document 01, and those of repeated groups and of places, through build, read back and match: what the desk program writes about a rule
// and a text, and the masks that the document prints.

#![tactic(auto)]

use desk_report::report;
use image_sections::{Sections, sections_of};
use std::io;
use watcher::build;

fn show(rt: &impl Print, rule: &[u8], journal: &[u8]) -> io::Result<()> {
    rt.write_all(b"-- ")?;
    rt.write_all(rule)?;
    rt.write_all(b" on '")?;
    rt.write_all(journal)?;
    rt.write_all(b"'\n")?;
    let mut text = [0u8; 22400];
    let length = report(rule, journal, &mut text);
    rt.write_all(&text[..length])
}

// The masks of one depth, where a mask has one word: block, source and target, or of back edges, which have no block, source and target.
fn show_depth(rt: &impl Print, label: &[u8], masks: &[u64]) -> io::Result<()> {
    rt.write_all(label)?;
    for mask in masks {
        print!(rt; " {mask}")?;
    }
    rt.write_all(b"\n")
}

// The masks of a rule of at most 64 states and depth 1.
fn show_masks(rt: &impl Print, rule: &[u8]) -> io::Result<()> {
    let mut image = [0u64; 4834];
    // Each of these rules is built.
    let _ = build(rule, &mut image);
    let Sections {
        scatter,
        gather,
        propagate,
        back,
        ..
    } = sections_of(64, 1);
    show_depth(rt, b"scatter 0:", &image[scatter..scatter + 3])?;
    show_depth(rt, b"gather 0:", &image[gather..gather + 3])?;
    show_depth(rt, b"propagate 0:", &image[propagate..propagate + 3])?;
    show_depth(rt, b"propagate 1:", &image[propagate + 3..propagate + 6])?;
    show_depth(rt, b"back 0:", &image[back..back + 2])
}

fn show_letters(rt: &impl Print) -> io::Result<()> {
    show(rt, b"a", b"aba")?;
    show(rt, b"b?", b"")?;
    show(rt, b"b?", b"ab")?;
    show(rt, b"a{2,3}", b"aaaa")?;
    show(rt, b"[AB]+B.{1,3}[BC]?.*C", b"ABCBBC")?;
    show(rt, b"[AB]+B.{1,3}[BC]?.*C", b"ABCBCC")
}

fn show_unions(rt: &impl Print) -> io::Result<()> {
    show(rt, b"A(BA|CD)(CD|AB)B", b"ABACDB")?;
    show_masks(rt, b"A(BA|CD)(CD|AB)B")?;
    show(rt, b"A(AB|B?)(B?.*|AB)C", b"AC")?;
    show_masks(rt, b"A(AB|B?)(B?.*|AB)C")?;
    show(rt, b"((ab))", b"ab")?;
    show(rt, b"a|b", b"ab")?;
    show(rt, b"((a|b)|c)", b"c")?;
    show(rt, b"[ba]", b"b")
}

fn show_repeated(rt: &impl Print) -> io::Result<()> {
    show(rt, b"(ab)*", b"ababb")?;
    show_masks(rt, b"(ab)*")?;
    show(rt, b"(a|b)*", b"ab")?;
    show(rt, b"(a|b)+", b"ab")?;
    show(rt, b"(a?)+", b"ab")?;
    show_masks(rt, b"(a?)+")?;
    show(rt, b"((a)+)+", b"aab")
}

// Two records: a dot takes every byte but 10.
fn show_dots(rt: &impl Print) -> io::Result<()> {
    show(rt, b"O.*S", b"OPS\nOP\nS")?;
    show(rt, b"O[\\x00-\\xFF]*S", b"OPS\nOP\nS")?;
    show(rt, b"[\\x0B-\\xFF\\x00-\\x09]", b"a\n")
}

fn show_refusals(rt: &impl Print) -> io::Result<()> {
    show(rt, b"", b"")?;
    show(rt, b"()", b"")?;
    show(rt, b"a||b", b"a")?;
    show(rt, b"(a){2}", b"aa")?;
    show(rt, b"[c-ab]", b"a")?;
    show(rt, b"a{0}", b"a")?;
    show(rt, b"a{3,}", b"aaa")?;
    show(rt, b"a\n", b"a")?;
    show(rt, b"a{512}", b"a")?;
    show(rt, b"(((((((((a|b)|b)|b)|b)|b)|b)|b)|b)|b)", b"a")
}

// Where a rule went wrong: what a number and a range can still become counts.
fn show_places(rt: &impl Print) -> io::Result<()> {
    show(rt, b"(a", b"a")?;
    show(rt, b"a{3,2}", b"aaa")?;
    show(rt, b"a{300,2}", b"aaa")?;
    show(rt, b"a{1000}", b"a")?;
    show(rt, b"[c-\\x62]", b"c")?;
    show(rt, b"\\x4", b"A")
}

fn main(rt: HostRuntime) -> io::Result<()> {
    show_letters(&rt)?;
    show_unions(&rt)?;
    show_repeated(&rt)?;
    show_dots(&rt)?;
    show_refusals(&rt)?;
    show_places(&rt)
}
