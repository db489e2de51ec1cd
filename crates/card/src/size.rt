// A board at another block size: how it was carried there, or why it cannot be, in words.
use resizing::resize::{NotCarried, Resized};
use std::io;

// Why a board cannot be carried. Not Display: resizing's types, which print nothing; each is printed once,
// here.
fn show_reason(to: &impl Print, reason: NotCarried) -> io::Result<()> {
    match reason {
        NotCarried::Refused(refusal) => println!(to;
            "refused {} {}",
            refusal.number, refusal.place
        ),
        NotCarried::NoSize => println!(to; "a block size is a whole number from 1 to 128"),
        NotCarried::ManyLate(count) => {
            println!(to; "{count} wires are late, and only one can be made up for")
        }
        NotCarried::NoDelay(node) => {
            println!(to; "the late wire leads into node {node}, which is no delay")
        }
        NotCarried::TooShort(node, n) => {
            println!(to; "the late wire leads into node {node}, a delay of {n}, which is too short")
        }
        NotCarried::TooLong(node, n) => println!(to;
            "the late wire leads into node {node}, a delay of {n}: it would pass 132300"
        ),
        NotCarried::TooMuch(node, n) => println!(to;
            "the late wire leads into node {node}, a delay of {n}: all lines together would pass 262144"
        ),
    }
}

// What became of a board that was to be at blocks of `size`. Not Display, as above.
pub fn show_resized(
    to: &impl Print,
    size: u32,
    resized: Result<Resized, NotCarried>,
) -> io::Result<()> {
    match resized {
        Err(reason) => {
            print!(to; "not carried: ")?;
            show_reason(to, reason)
        }
        Ok(Resized::Same) => println!(to; "blocks of {size} already: nothing changes"),
        Ok(Resized::Size) => {
            println!(to; "blocks of {size}: no wire is late, so nothing else changes")
        }
        Ok(Resized::Line(node, n, m)) => println!(to;
            "blocks of {size}: node {node}, a delay of {n}, becomes a delay of {m}"
        ),
    }
}
