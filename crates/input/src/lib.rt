// For programs: room for bytes, input read into it, and the words of the command.
#![tactic(auto)]

ghost use Rattle.std.specs.Prelude.{◌≡◌, ◌<◌, ◌≤◌, length, take, IfOk, OnOk};
ghost use Rattle.std.specs.Io.{ReadsAtMost};
ghost use Rattle.std.specs.Io.KnownBytes.{Consumes, IsAtEnd};
ghost use Rattle.io.specs.Counts.{IsPrefixLen};

use std::env::FillError;
use std::io;
use std::io::Read;
use std::rt::Env;

// Room for N bytes, all zero; for a caller whose proof speaks of the length: there the prover would unfold
// the array.
pub fn room<const N: usize>() -> [u8; N]
    ensures { N ≡ length result }
{
    [0; N]
}

// Reads until `buf` is full, the input ends or a read fails: how many bytes it put at the start of `buf`,
// and the failure that ended it. Ruled out: more bytes than there is room for (one_byte_more); a failure
// that is answered as the input's end (failure_unsaid).
pub fn fill<R: Read>(input: &mut R, buf: &mut [u8]) -> (usize, io::Result<()>)
    ensures within { IsPrefixLen result.0 buf.new }
    ensures bytes { Consumes (R.remaining input.old) (R.remaining input.new) (take result.0 buf.new) }
    ensures end { OnOk result.1 (result.0 < length buf.new → IsAtEnd (R.remaining input.new)) }
{
    let mut done = 0;
    // A `while`: a turn passes as many bytes as a read gave.
    while done < buf.len() {
        match input.read(&mut buf[done..]) {
            Ok(0) => break,
            Ok(n) => done += n,
            Err(why) => return (done, Err(why)),
        }
    }
    (done, Ok(()))
}

// The same, where a failure is all that the caller needs to know: how many bytes, or the failure.
pub fn read_full<R: Read>(input: &mut R, buf: &mut [u8]) -> io::Result<usize>
    ensures within { ReadsAtMost result buf.new }
    ensures bytes { IfOk result (λ n. Consumes (R.remaining input.old) (R.remaining input.new) (take n buf.new)) }
    ensures end { IfOk result (λ n. n < length buf.new → IsAtEnd (R.remaining input.new)) }
{
    let (done, ended) = fill(input, buf);
    ended?;
    Ok(done)
}

// Argument i, which is the program's name for 0, put into `place`; an empty word where there is none, or one
// that is too long for the place.
// Ruled out: a byte that the place may not have (word_unsaid).
pub fn word<'a, R: Env>(rt: &R, i: usize, place: &'a mut [u8]) -> &'a [u8]
    ensures { length result.now ≤ length place.old }
{
    let n = rt.arg(i, place).unwrap_or(0);
    &place[..n]
}

// Whether there is an argument i. No clause: the contract of `Env::arg` bounds the bytes that it writes, and
// does not say which arguments there are.
pub fn is_there<R: Env>(rt: &R, i: usize) -> bool {
    !matches!(rt.arg(i, &mut []), Err(FillError::NotPresent))
}
