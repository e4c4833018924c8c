// A typed kind line after its colon: its words go to the words of the description.
#![tactic(auto)]

ghost use Rattle.std.specs.Prelude.{◌≡◌, ◌+◌, ◌≤◌, length, drop};
ghost use Rattle.rules.specs.Descriptions.{most_ways};
ghost use Rattle.typed.specs.Symbols.{symbols};
ghost use Rattle.typed.specs.Sheets.{ways_of, code_of};
ghost use Rattle.taken.specs.Lines.{Took};
ghost use Rattle.kind_texts.specs.Listing.{none, Keeps, Puts};

use answers::limits::MOST_WAYS;
use symbols::{Symbol, symbol_at};
use taken::{put_start, put_words};

// The ways of a line: as many as there may be are kept, and they are counted up to one too many.
// Stays: a count beside the words, since it goes to one more than there is room for.
#[derive(Clone, Copy, Debug, PartialEq, Eq)]
struct Ways {
    kept: [u16; MOST_WAYS],
    count: usize,
    ghost counted: { count ≤ most_ways + 1 },
}

// Whether no symbol follows from a place on.
fn ends(line: &[u8], at: usize) -> bool
    requires { at ≤ length line.now }
    ensures { result ≡ none (symbols (drop at line.now)) }
{
    symbol_at(line, at).symbol.is_none()
}

impl Ways {
    ghost use Rattle.kind_texts.specs.Ways.{Came};

    // Keeps a way after those so far, unless they are too many, and counts it.
    fn keep(&mut self, way: u16)
        ensures { Keeps way self.old.kept self.old.count self.new.kept self.new.count }
    {
        if MOST_WAYS <= self.count {
            self.count = MOST_WAYS + 1;
            return;
        }
        self.kept[self.count] = way;
        self.count += 1;
    }

    // Lists the ways from a place on, up to the closing parenthesis, which ends the line, unless they are malformed.
    fn list(line: &[u8], at: usize) -> Option<Ways>
        requires { at ≤ length line.now }
        ensures { Came (ways_of (symbols (drop at line.now))) result }
    {
        let mut next = at;
        let mut ways = Ways {
            kept: [0; MOST_WAYS],
            count: 0,
        };
        loop {
            let token = symbol_at(line, next);
            match token.symbol? {
                Symbol::Number(way) => ways.keep(way),
                Symbol::RightParen => return ends(line, token.next).then_some(ways),
                _ => return None,
            }
            next = token.next;
        }
    }

    // Puts the words of a kind line with these ways into the words lent, from a place on, and answers the next place: where the ways are too many,
    // only their number.
    fn put(&self, board: u16, code: u16, words: &mut [u16], next: usize) -> usize
        requires { next + 11 ≤ length words.old }
        ensures { Puts board code self.now.kept self.now.count words.old next words.new result }
    {
        // The ways kept are copied, so that the compiler knows them apart from the words lent.
        let Ways { kept, count } = *self;
        let after = put_start(words, next, board, code, count as u16);
        if MOST_WAYS < count {
            return after;
        }
        put_words(words, after, &kept[..count]);
        after + count
    }
}

// Takes a kind line from the place after its colon on, unless it is malformed: its words go to the words lent, from a place on. Answers the place
// after them.
pub fn take_kind(
    line: &[u8],
    at: usize,
    board: u16,
    words: &mut [u16],
    next: usize,
) -> Option<usize>
    requires { (at ≤ length line.now) × (next + 11 ≤ length words.old) }
    ensures { Took most_ways (code_of board (symbols (drop at line.now))) words.old next words.new result }
{
    let first = symbol_at(line, at);
    let Symbol::Number(code) = first.symbol? else {
        return None;
    };
    let left = symbol_at(line, first.next);
    let Symbol::LeftParen = left.symbol? else {
        return None;
    };
    let ways = Ways::list(line, left.next)?;
    Some(ways.put(board, code, words, next))
}
