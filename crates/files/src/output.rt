// The output file. What is written to a regular file is written beside it first, as OUT.part, and takes
// its name when all is written: what stood there before stays as it was until then. Links are followed,
// so that a link stays one and what it leads to is replaced in the same way.
ghost use Rattle.std.specs.Prelude.{◌≡◌, ◌+◌, ◌≤◌, length, IfOk, IfSome};
ghost use Rattle.io.specs.Counts.{IsPrefixLen};

use crate::is_open_file;
use crate::name::{open_update, path_of};
use std::path::PathBuf;
use std::rt::Files;
use std::{fs, io};

// How an output is written: straight to what is there, or beside it first.
#[derive(Clone, Copy, Debug, PartialEq, Eq)]
pub enum Way {
    Straight,
    Beside,
}

// Copies bytes to a place in others.
fn put(from: &[u8], to: &mut [u8], at: usize)
    requires { at + length from.now ≤ length to.old }
{
    to[at..at + from.len()].copy_from_slice(from);
}

// `OUT.part`, put into the place; none where it is too long for a path. Ruled out, and tried by a must-fail
// edit: a name without its last letter (part_cut).
pub fn part_name<'a>(output: &[u8], place: &'a mut [u8; 4096]) -> Option<&'a [u8]>
    ensures long { IfSome result (λ part. length part.now ≡ length output.now + 5) }
    ensures fits { IfSome result (λ part. length part.now ≤ length place.old) }
{
    let n = output.len();
    if 4090 < n {
        return None;
    }
    put(output, place, 0);
    put(b".part", place, n);
    Some(&place[..n + 5])
}

// The length of a name's folder, the last slash included.
fn folder_length(name: &[u8]) -> usize
    ensures { result ≤ length name.now }
{
    match name.iter().rposition(|b| *b == b'/') {
        Some(last) => last + 1,
        None => 0,
    }
}

// Why a name leads no further: it is no link, or one to a name that is too long.
#[derive(Clone, Copy, Debug, PartialEq, Eq)]
enum Unfollowed {
    NoLink,
    TooLong,
}

// A link's target in the place of its name, from `at` on, and the length of the whole.
fn put_target(target: &[u8], name: &mut [u8], at: usize) -> Result<usize, Unfollowed>
    requires { at ≤ length name.old }
    ensures { IfOk result (λ n. IsPrefixLen n name.new) }
{
    if name.len() - at < target.len() {
        return Err(Unfollowed::TooLong);
    }
    put(target, name, at);
    Ok(at + target.len())
}

// What a link says, where the name is one's.
fn target_of<R: Files + Alloc>(rt: &R, name: &[u8]) -> io::Result<PathBuf<R::A>> {
    fs::read_link(rt, path_of(name)?)
}

// What the refusal to read a link means. The system's own says that there is none; any other, that its
// target cannot be taken as a name, and then it is refused as one that is too long.
fn no_target(error: io::Error) -> Unfollowed {
    match error.raw_os_error() {
        Some(_) => Unfollowed::NoLink,
        None => Unfollowed::TooLong,
    }
}

// Follows the link that has the name in the first n bytes: its target stands there instead. A target
// that does not begin at the root begins in the link's folder. `name, n`: a target is put over the name that
// it is read by.
fn follow<R: Files + Alloc>(rt: &R, name: &mut [u8], n: usize) -> Result<usize, Unfollowed>
    requires { n ≤ length name.old }
    ensures { IfOk result (λ n. IsPrefixLen n name.new) }
{
    let target = target_of(rt, &name[..n]).map_err(no_target)?;
    let at = if target.is_absolute() {
        0
    } else {
        folder_length(&name[..n])
    };
    put_target(target.as_str().as_bytes(), name, at)
}

// The name of the file that a path leads to, its links followed, put into the place; none where it is
// empty or too long, or where the links are more than 40.
pub fn led_to<'a, R: Files + Alloc>(rt: &R, output: &[u8], name: &'a mut [u8]) -> Option<&'a [u8]>
    ensures { IfSome result (λ file. length file.now ≤ length name.old) }
{
    let mut n = put_target(output, name, 0).ok()?;
    for _ in 0..40 {
        match follow(rt, name, n) {
            Ok(next) => n = next,
            Err(Unfollowed::NoLink) if 0 < n => return Some(&name[..n]),
            Err(_) => return None,
        }
    }
    None
}

// The way of an output whose links lead to `file`. What is no regular file, as a pipe or /dev/null, is
// written straight, and so is one that the links do not name, as those of /dev/fd. A file that may not
// be written is not replaced either. Opening it for reading and writing neither waits nor changes it.
pub fn way_of<R: Files>(rt: &R, output: &[u8], file: &[u8]) -> io::Result<Way> {
    match open_update(rt, output) {
        Ok(old) if is_open_file(rt, &old, file) => Ok(Way::Beside),
        Ok(_) => Ok(Way::Straight),
        Err(error) if error.kind() == io::ErrorKind::NotFound => Ok(Way::Beside),
        Err(error) => Err(error),
    }
}
