// Runs the cases on standard input, one after the other, and writes what each call answers and leaves.
//
// A case begins with four numbers of 32 bits: its call, a number, how many words and how many cells it has; then come the words, of 16 bits, and the
// cells, of a byte. All numbers are little-endian. The number is the budget for a search, and how much room is lent to a text call. A case of the program, and
// one that reads a text, has bytes for words. The run ends with the input, or at a case that is cut off or too large; where the output fails, with its error.
#![tactic(auto)]

mod calls;
mod runs;
mod says;
mod texts;

use crate::runs::{End, Run};
use std::io;

// The most words of a case.
const CASE_WORDS: usize = 65600;

// The most cells of a case.
const CASE_CELLS: usize = 512;

// The most bytes of room for a text.
const TEXT_ROOM: usize = 32768;

// The most cases of a run.
// Stays: the program does the same on every input, also on one of more cases, where it ends.
const MOST_CASES: usize = 1000000000;

fn main(rt: HostRuntime) -> io::Result<()> {
    // Stays: rooms of a fixed size, since the program has to run where memory lacks.
    let mut bytes = [0u8; 2 * CASE_WORDS];
    let mut words = [0u16; CASE_WORDS];
    let mut lent = [0u8; CASE_CELLS];
    let mut cells = [0u8; CASE_CELLS];
    let mut text = [0u8; TEXT_ROOM];
    let mut run = Run {
        input: rt.reader(),
        out: io::writer(&rt),
        bytes: &mut bytes,
        words: &mut words,
        lent: &mut lent,
        cells: &mut cells,
        text: &mut text,
    };
    for _ in 0..MOST_CASES {
        match run.case() {
            Ok(()) => {}
            Err(End::Input) => return Ok(()),
            Err(End::Output(error)) => return Err(error),
        }
    }
    Ok(())
}
