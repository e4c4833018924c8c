// The text calls: each writes what it answers, and what it leaves in its room, which comes filled.
use crate::says::Answer;
use std::io;
use std::io::Write;

// What fills a room of words, and one of bytes.
const WORD: u16 = 42405;

const BYTE: u8 = 165;

// Whether what stands in a room from a place on is as it came.
fn is_kept<T: PartialEq + Copy>(room: &[T], from: usize, filler: T) -> bool {
    room.iter().skip(from).all(|item| *item == filler)
}

// Writes whether what stands past the count is as it came, and ends the line.
fn say_kept<W: Write>(out: &mut W, kept: bool) -> io::Result<()> {
    out.write_all(if kept { b"kept\n" } else { b"lost\n" })
}

// Reads a text into the room.
pub(crate) fn from_text<W: Write>(out: &mut W, text: &[u8], room: &mut [u16]) -> io::Result<()> {
    room.fill(WORD);
    let answer = Answer::from(talung::talung_from_text(text, room));
    write!(out, "typed {answer}")?;
    if is_kept(room, 0, WORD) {
        return out.write_all(b" same\n");
    }
    let count = answer.count as usize;
    for word in room.iter().take(count) {
        write!(out, " {word}")?;
    }
    out.write_all(b" ")?;
    say_kept(out, is_kept(room, count, WORD))
}

// Writes a text into the room.
pub(crate) fn to_text<W: Write>(out: &mut W, words: &[u16], room: &mut [u8]) -> io::Result<()> {
    room.fill(BYTE);
    let answer = Answer::from(talung::talung_to_text(words, room));
    write!(out, "texted {answer}")?;
    if is_kept(room, 0, BYTE) {
        return out.write_all(b" same\n");
    }
    let count = answer.count as usize;
    out.write_all(b"\n")?;
    if let Some(text) = room.get(..count) {
        out.write_all(text)?;
    }
    say_kept(out, is_kept(room, count, BYTE))
}
