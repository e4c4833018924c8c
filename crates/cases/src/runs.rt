// A run of cases: where they are read from, what they are read into, and where their answers go.
ghost use Rattle.std.specs.Prelude.{◌≡◌, length, IfOk};

use crate::calls::{Call, SolverCall};
use crate::texts::{from_text, to_text};
use listing::Page;
use std::io;
use std::io::{Read, Write};

// Why a run ends: its input has no further case that is whole and has room, or its output failed.
#[derive(Drop)]
pub(crate) enum End {
    Input,
    Output(io::Error),
}

impl From<io::Error> for End {
    fn from(error: io::Error) -> End {
        End::Output(error)
    }
}

// Fills the room from the input.
fn fill<R: Read>(input: &mut R, room: &mut [u8]) -> Result<(), End> {
    input.read_exact(room).map_err(|_| End::Input)
}

// So much of a room, if it has so much.
fn part<T>(room: &mut [T], size: usize) -> Result<&mut [T], End>
    ensures { IfOk result (λ part. length part.now ≡ size) }
{
    room.get_mut(..size).ok_or(End::Input)
}

// The numbers that a case begins with: its call, the call's number, and how many words and cells it has.
#[derive(Clone, Copy)]
struct Front {
    call: Call,
    number: u32,
    words: u32,
    cells: u32,
}

// The input, the output, and the rooms that each case is run in.
#[derive(Drop)]
pub(crate) struct Run<'a, R: Read, W: Write> {
    pub input: R,
    pub out: W,
    pub bytes: &'a mut [u8],
    pub words: &'a mut [u16],
    pub lent: &'a mut [u8],
    pub cells: &'a mut [u8],
    pub text: &'a mut [u8],
}

impl<R: Read, W: Write> Run<'_, R, W> {
    // The numbers that the next case begins with, read at once, since a reader that keeps no bytes back asks the system for each read.
    fn front(&mut self) -> Result<Front, End> {
        let mut bytes = [0; 16];
        fill(&mut self.input, &mut bytes)?;
        let [a, b, c, d, e, f, g, h, i, j, k, l, m, n, o, p] = bytes;
        Ok(Front {
            call: Call::from(u32::from_le_bytes([a, b, c, d])),
            number: u32::from_le_bytes([e, f, g, h]),
            words: u32::from_le_bytes([i, j, k, l]),
            cells: u32::from_le_bytes([m, n, o, p]),
        })
    }

    // Runs the next case.
    pub(crate) fn case(&mut self) -> Result<(), End> {
        let front = self.front()?;
        match front.call {
            Call::Solver(call) => self.solve(call, front),
            Call::Site => self.print(front),
            Call::FromText => self.type_in(front),
            Call::ToText => self.type_out(front),
        }
    }

    // Runs a case of the solver.
    fn solve(&mut self, call: SolverCall, front: Front) -> Result<(), End> {
        let bytes = part(self.bytes, 2 * front.words as usize)?;
        let words = part(self.words, front.words as usize)?;
        let lent = part(self.lent, front.cells as usize)?;
        let cells = part(self.cells, front.cells as usize)?;
        fill(&mut self.input, bytes)?;
        fill(&mut self.input, lent)?;
        words::take_words(bytes, words);
        cells.copy_from_slice(lent);
        call.make(&mut self.out, front.number, words, lent, cells)?;
        Ok(())
    }

    // Runs a case of the program.
    fn print(&mut self, front: Front) -> Result<(), End> {
        // It has at most as many bytes as another case has words.
        let size = front.words as usize;
        if self.words.len() < size {
            return Err(End::Input);
        }
        let bytes = part(self.bytes, size)?;
        let lent = part(self.lent, front.cells as usize)?;
        fill(&mut self.input, bytes)?;
        fill(&mut self.input, lent)?;
        let Page { text, used } = listing::listing(bytes);
        self.out.write_all(b"site\n")?;
        self.out.write_all(&text[..used])?;
        Ok(())
    }

    // Runs a case that reads a text.
    fn type_in(&mut self, front: Front) -> Result<(), End> {
        let text = part(self.bytes, front.words as usize)?;
        let room = part(self.words, front.number as usize)?;
        fill(&mut self.input, text)?;
        from_text(&mut self.out, text, room)?;
        Ok(())
    }

    // Runs a case that writes a text.
    fn type_out(&mut self, front: Front) -> Result<(), End> {
        let bytes = part(self.bytes, 2 * front.words as usize)?;
        let words = part(self.words, front.words as usize)?;
        fill(&mut self.input, bytes)?;
        words::take_words(bytes, words);
        let room = part(self.text, front.number as usize)?;
        to_text(&mut self.out, words, room)?;
        Ok(())
    }
}
