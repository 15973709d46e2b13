// Files read whole, for the programs.

#![tactic(auto)]

ghost use Rattle.io.specs.Counts.{IsPrefixLen};

use std::fs;
use std::io::Read;
use std::rt::Files;

// Reads until there is no more room, no byte more, or a read that fails: how many bytes were read.
pub fn read_full(reader: &mut impl Read, bytes: &mut [u8]) -> usize
    ensures { IsPrefixLen result bytes.new }
{
    let mut done = 0;
    // No for: the place moves on by what was read, and no read_exact: that says no count where there is less.
    while done < bytes.len() {
        let count = reader.read(&mut bytes[done..]).unwrap_or(0);
        if count == 0 {
            break;
        }
        done += count;
    }
    done
}

// The bytes of a file, as many as there is room for. "A file that can't be opened counts as empty": nor can one here whose path is no text.
pub fn read_file(files: &impl Files, path: &[u8], bytes: &mut [u8]) -> usize
    ensures { IsPrefixLen result bytes.new }
{
    let Ok(name) = str::from_utf8(path) else {
        return 0;
    };
    match fs::open(files, name) {
        Ok(mut file) => read_full(&mut file, bytes),
        Err(_) => 0,
    }
}
