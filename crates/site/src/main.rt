// Reads a description from standard input and prints what is listed for it. It only moves bytes: what is printed is decided in the crate `listing`.
#![tactic(auto)]

ghost use Rattle.std.specs.Prelude.{◌≡◌, ◌+◌, ◌≤◌, length};
ghost use Rattle.std.specs.Io.{ReadsAtMost};
ghost use Rattle.listing.specs.Listings.{most_bytes};

use listing::Page;
use std::io;
use std::io::{Read, Write};

// The bytes that are read at most: one more than the longest description has, so that a longer input is noticed.
const INPUT_BYTES: usize = listing::MOST_BYTES + 1;

// Room for the input.
// Stays: a room of a fixed size, since a `Vec` fails where memory lacks, and the program answers there.
fn input_room() -> [u8; INPUT_BYTES]
    ensures { length result ≡ most_bytes + 1 }
{
    [0; INPUT_BYTES]
}

// Reads until the input ends or the room is full, and says how many bytes came.
fn take_all<R: Read>(reader: &mut R, bytes: &mut [u8]) -> io::Result<usize>
    ensures { ReadsAtMost result bytes.old }
{
    let mut n = 0;
    // Stays: `read_to_end` reads again after an interrupted read, which fails here, and `read_exact` loses the count at the end.
    while n < bytes.len() {
        let more = reader.read(&mut bytes[n..])?;
        if more == 0 {
            break;
        }
        n += more;
    }
    Ok(n)
}

// The page for what is read.
fn page<I: Input>(input: &I) -> Page
    ensures { result.used ≤ length result.text }
{
    let mut bytes = input_room();
    match take_all(&mut input.reader(), &mut bytes) {
        Ok(n) => listing::listing(&bytes[..n]),
        Err(_) => listing::unread(),
    }
}

// Prints the page. Where it could not be written as a whole, that is said on standard error.
fn main(rt: HostRuntime) {
    let Page { text, used } = page(&rt);
    if io::writer(&rt).write_all(&text[..used]).is_err() {
        let _ = eprintln!(rt; "site: the answer could not be written");
    }
}
