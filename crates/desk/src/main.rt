// The desk program (document 01): reads the files `rule` and `journal` of the current folder whole, every byte counting, and writes its report.

#![tactic(auto)]

use desk_report::report;
use program_files::read_file;
use std::io;

// "No more than 1,025 bytes of the rule and 65,536 of the journal need be read." A report has at most 22,397 bytes.
fn main(rt: HostRuntime) -> io::Result<()> {
    let mut rule = [0u8; 1025];
    let rule_length = read_file(&rt, b"rule", &mut rule);
    let mut journal = [0u8; 65536];
    let journal_length = read_file(&rt, b"journal", &mut journal);
    let mut text = [0u8; 22400];
    let length = report(&rule[..rule_length], &journal[..journal_length], &mut text);
    rt.write_all(&text[..length])
}
