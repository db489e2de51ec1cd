// Files: whether two names lead to one file, and where and how an output is written. No contract can say
// what a file holds; every function is safe and ends.
#![tactic(auto)]

pub mod name;
pub mod output;

use crate::name::{open_read, open_update};
use std::fs::OpenFile;
use std::os::unix::fs::MetadataExt;
use std::rt::Files;

// The device and the number of a regular file: two names that lead to one file have both alike.
#[derive(Clone, Copy, Debug, PartialEq, Eq)]
pub struct Identity {
    pub device: u64,
    pub number: u64,
}

// Of an open file, as the system tells; none of what is no regular file, or where it tells nothing.
pub fn identify(file: &impl OpenFile) -> Option<Identity> {
    let told = file.metadata().ok()?;
    if !told.is_file() {
        return None;
    }
    Some(Identity {
        device: told.dev(),
        number: told.ino(),
    })
}

// Whether two open files are one regular file: to write the one would lose the other.
pub fn same_file(a: &impl OpenFile, b: &impl OpenFile) -> bool {
    match (identify(a), identify(b)) {
        (Some(x), Some(y)) => x == y,
        _ => false,
    }
}

// Whether an output that is there is the open file, under any name. Opening it for reading and writing
// neither waits nor changes it.
pub fn is_open_file<R: Files>(rt: &R, file: &R::File, output: &[u8]) -> bool {
    match open_update(rt, output) {
        Ok(other) => same_file(file, &other),
        Err(_) => false,
    }
}

// The same of a file that is named; no file has an empty name.
pub fn is_file<R: Files>(rt: &R, name: &[u8], output: &[u8]) -> bool {
    if name.is_empty() {
        return false;
    }
    match open_read(rt, name) {
        Ok(file) => is_open_file(rt, &file, output),
        Err(_) => false,
    }
}
