// Files by their names, which are bytes here. The system's are too, but std's paths are text: a name that
// is no UTF-8 leads to no file.
ghost use Rattle.std.specs.Prelude.{◌≡◌, ◌↔◌, IfOk, IsOk};
ghost use Rattle.std.specs.Str.{IsUtf8};

use std::fs::{File, OpenOptions};
use std::rt::Files;
use std::{fs, io, str};

// The path of a name.
pub fn path_of(name: &[u8]) -> io::Result<&str>
    ensures text { IsOk result ↔ IsUtf8 name.now }
    ensures same { IfOk result (λ path. path.now ≡ name.now) }
{
    str::from_utf8(name).map_err(|_| io::Error::from(io::ErrorKind::InvalidFilename))
}

// Opens a file as the options say.
fn open<R: Files>(rt: &R, name: &[u8], options: &OpenOptions) -> io::Result<R::File> {
    options.open(rt, path_of(name)?)
}

// Opens a file for reading.
pub fn open_read<R: Files>(rt: &R, name: &[u8]) -> io::Result<R::File> {
    File::open(rt, path_of(name)?)
}

// Opens a file for reading and writing, and leaves its bytes as they are.
pub fn open_update<R: Files>(rt: &R, name: &[u8]) -> io::Result<R::File> {
    open(rt, name, OpenOptions::new().read(true).write(true))
}

// Opens a file for writing and empties it, if it is a regular one; or makes it.
pub fn open_overwrite<R: Files>(rt: &R, name: &[u8]) -> io::Result<R::File> {
    File::create(rt, path_of(name)?)
}

// Makes a file, where none has the name, and opens it for writing.
pub fn create<R: Files>(rt: &R, name: &[u8]) -> io::Result<R::File> {
    open(rt, name, OpenOptions::new().write(true).create_new(true))
}

// Gives a file another name, which is taken from the file that has it.
pub fn rename(rt: &impl Files, from: &[u8], to: &[u8]) -> io::Result<()> {
    fs::rename(rt, path_of(from)?, path_of(to)?)
}

// Takes a file away.
pub fn remove(rt: &impl Files, name: &[u8]) -> io::Result<()> {
    fs::remove_file(rt, path_of(name)?)
}
