//! Why a file can't be read.

use std::alloc::Global;
use std::io::{Error, Read};
use std::{fs, rt};

/// What the system says of the file that couldn't be read.
pub(crate) fn unread_cause<R: rt::Files>(rt: &R, alloc: Global, line: &str) -> Option<String> {
    let name = line.strip_prefix("cannot read ")?;
    let fault = read_fault(rt, name)?;
    let said = format!(in alloc; "{fault}").ok()?;
    let said = without_number(said.as_str());
    format!(in alloc; "{name}: {said}").ok()
}

// What the system answers where a file is opened and read. What is neither a regular file nor a folder isn't opened again.
fn read_fault<R: rt::Files>(rt: &R, name: &str) -> Option<Error> {
    match fs::metadata(rt, name) {
        Ok(seen) if seen.is_file() || seen.is_dir() => first_byte_fault(rt, name),
        Ok(_) => None,
        Err(fault) => Some(fault),
    }
}

fn first_byte_fault<R: rt::Files>(rt: &R, name: &str) -> Option<Error> {
    match fs::open(rt, name) {
        Ok(mut file) => {
            let mut byte = [0; 1];
            match file.read(&mut byte) {
                Ok(_) => None,
                Err(fault) => Some(fault),
            }
        }
        Err(fault) => Some(fault),
    }
}

// The words of an error without the number after them.
fn without_number(said: &str) -> &str {
    match said.split_once(" (os error ") {
        Some((words, _)) => words,
        None => said,
    }
}
