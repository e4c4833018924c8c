// What a case comes to, as text.
use std::io::Write;
use std::{fmt, io};
use talung::COUNT_UNIT;

// The number and the count of an answer.
#[derive(Clone, Copy)]
pub(crate) struct Answer {
    pub number: u64,
    pub count: u64,
}

impl From<u64> for Answer {
    // The answer that is packed in this number.
    fn from(packed: u64) -> Answer {
        Answer {
            number: packed % COUNT_UNIT,
            count: packed / COUNT_UNIT,
        }
    }
}

impl fmt::Display for Answer {
    fn fmt<W: fmt::Write>(&self, f: &mut fmt::Formatter<W>) -> fmt::Result {
        let number = self.number;
        let count = self.count;
        write!(f, "{number} {count}")
    }
}

// Writes the cells, each as a digit, or that they are as they were lent, and ends the line.
pub(crate) fn say_table<W: Write>(out: &mut W, lent: &[u8], cells: &[u8]) -> io::Result<()> {
    if lent == cells {
        return out.write_all(b" same\n");
    }
    out.write_all(b" ")?;
    for cell in cells {
        write!(out, "{cell:x}")?;
    }
    out.write_all(b"\n")
}
