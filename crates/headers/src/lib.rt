// The header of a description.
#![tactic(auto)]

ghost use Rattle.std.specs.Prelude.{◌≡◌};
ghost use Rattle.headers.specs.Found.{numbered, header_found};

use answers::limits::{HEADER_WORDS, MOST_BOARDS, MOST_KINDS, MOST_LINES};
use answers::refusals::{Fault, Refusal};

// A section of a description: where its lines begin, and how many there are.
#[derive(Clone, Copy, Debug, PartialEq, Eq)]
pub struct Section {
    pub at: usize,
    pub count: usize,
}

// A header says how many boards there are, and where the relation lines and the kind lines stand.
#[derive(Clone, Copy, Debug, PartialEq, Eq)]
pub struct Header {
    pub boards: usize,
    pub lines: Section,
    pub kinds: Section,
}

impl Header {
    // A header with these numbers: the relation lines begin after it, the kind lines at this word.
    fn numbered(boards: usize, lines: usize, kinds: usize, at: usize) -> Header
        ensures { result ≡ numbered boards lines kinds at }
    {
        Header {
            boards,
            lines: Section {
                at: HEADER_WORDS,
                count: lines,
            },
            kinds: Section { at, count: kinds },
        }
    }
}

// Reads a header, word by word: its numbers are tested first, then its offsets and its total.
#[tactic(auto, unfolding(rules::specs::Descriptions::after_numbers, rules::specs::Descriptions::after_offsets))]
pub fn read_header(words: &[u16]) -> Result<Header, Refusal>
    ensures { result ≡ header_found words.now }
{
    if words.len() < HEADER_WORDS {
        return Err(Fault::OutOfRange.at(words.len()));
    }
    let boards = usize::from(words[0]);
    if boards < 1 || MOST_BOARDS < boards {
        return Err(Fault::OutOfRange.at(0));
    }
    let lines = usize::from(words[1]);
    if MOST_LINES < lines {
        return Err(Fault::OutOfRange.at(1));
    }
    let kinds = usize::from(words[2]);
    if MOST_KINDS < kinds {
        return Err(Fault::OutOfRange.at(2));
    }
    let first = usize::from(words[3]);
    if first != HEADER_WORDS {
        return Err(Fault::Misplaced.at(3));
    }
    let kinds_at = usize::from(words[4]);
    let total = usize::from(words[5]);
    if kinds_at < HEADER_WORDS || total < kinds_at {
        return Err(Fault::Misplaced.at(4));
    }
    if total != words.len() {
        return Err(Fault::Misplaced.at(5));
    }
    Ok(Header::numbered(boards, lines, kinds, kinds_at))
}
