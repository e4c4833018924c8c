// The lines of a typed sheet, one after the other: their words are gathered by their sorts.
#![tactic(auto)]

ghost use Rattle.std.specs.Prelude.{◌≡◌, ◌+◌, ◌≤◌, ◌<◌, nat_eq, length, replicate, position};
ghost use Rattle.rules.specs.Descriptions.{most_words};
ghost use Rattle.typed.specs.Symbols.{symbols};
ghost use Rattle.typed.specs.Grammar.{lines_of};
ghost use Rattle.typed.specs.Sheets.{first_of, line_of, lines_from};
ghost use Rattle.text_lines.specs.Lines.{Splits, Opens, AfterBoards, LineTook, Countable, counted, counted_with, next_line};
ghost use Rattle.text_lines.specs.Gatherings.{parts_of, sheet_parts, kinds_room, Gathers};

use answers::limits::{HEADER_WORDS, LINE_WORDS, MOST_KINDS, MOST_LINES, MOST_WAYS};
use kind_texts::take_kind;
use relation_texts::take_relation;
use symbols::{Symbol, symbol_at};

// A line after the first, and the place after its words.
#[derive(Clone, Copy, Debug, PartialEq, Eq)]
enum TakenLine {
    Relation(usize),
    Kind(usize),
}

// How many lines of a sort there are, and the place after their words.
#[derive(Clone, Copy, Debug, PartialEq, Eq)]
pub struct Section {
    pub lines: usize,
    pub end: usize,
}

impl Section {
    // Counts another line, whose words end at a place: they count only as long as there are not too many lines.
    fn count(&mut self, end: usize, most: usize)
        requires { Countable self.old }
        ensures { self.new ≡ counted most self.old end }
    {
        if self.lines < most {
            self.end = end;
        }
        self.lines += 1;
    }
}

// The number of boards, and the lines of each sort.
#[derive(Clone, Copy, Debug, PartialEq, Eq)]
pub struct Gathered {
    pub boards: u16,
    pub relations: Section,
    pub kinds: Section,
}

impl Gathered {
    // Counts another line by its sort.
    fn count(&mut self, line: TakenLine)
        requires relations { Countable self.old.relations }
        requires kinds { Countable self.old.kinds }
        ensures { self.new ≡ counted_with self.old line }
    {
        match line {
            TakenLine::Relation(end) => self.relations.count(end, MOST_LINES),
            TakenLine::Kind(end) => self.kinds.count(end, MOST_KINDS),
        }
    }

    // The number of the next line: the first one says how many boards there are.
    fn next_line(&self) -> usize
        requires { next_line self.now < 18446744073709551616 }
        ensures { result ≡ next_line self.now }
    {
        self.relations.lines + self.kinds.lines + 2
    }
}

// The number of the first line.
const FIRST_LINE: usize = 1;

// Room for the words of one kind line more than there may be.
const KINDS_ROOM: usize = (MOST_KINDS + 1) * (LINE_WORDS + MOST_WAYS);

// Stays: a function and no constant, since `kinds_room_determined` and an edit speak of it.
pub fn kinds_room() -> [u16; KINDS_ROOM]
    ensures { result ≡ replicate kinds_room 0 }
{
    [0; KINDS_ROOM]
}

// Where the first line of a text ends, if a line feed ends it.
// A function apart: put into its callers it is a longer loop, which takes up to twice as long.
#[inline(never)]
fn line_end(text: &[u8]) -> Option<usize>
    ensures { result ≡ position (λ b. nat_eq b 10) text.now }
{
    text.iter().position(|&byte| byte == b'\n')
}

// The first line of a text, and the text after it.
fn split_line(text: &[u8]) -> (&[u8], &[u8])
    ensures { Splits text.now result.0.now result.1.now }
{
    match line_end(text) {
        Some(end) => (&text[..end], &text[end + 1..]),
        None => (text, &[]),
    }
}

// The place after the word `boards` that the first line begins with.
fn after_boards(line: &[u8]) -> Option<usize>
    ensures { AfterBoards line.now result }
{
    let word = symbol_at(line, 0);
    match word.symbol? {
        Symbol::Boards => Some(word.next),
        _ => None,
    }
}

// The number of boards that the first line says, unless it is malformed.
fn open_line(line: &[u8]) -> Option<u16>
    ensures { Opens (first_of (symbols line.now)) result }
{
    let at = after_boards(line)?;
    let number = symbol_at(line, at);
    let Symbol::Number(boards) = number.symbol? else {
        return None;
    };
    symbol_at(line, number.next)
        .symbol
        .is_none()
        .then_some(boards)
}

// Takes a line after the first, unless it is malformed: its words go to those of its sort, from a place on.
// Stays: the lent words and the place in them are apart, since what is gathered has the places alone.
// A function apart: put into its caller, its loops over the bytes of a line lie anywhere in memory, and take up to twice as long.
#[inline(never)]
fn take_line(
    line: &[u8],
    words: &mut [u16],
    next: usize,
    kinds: &mut [u16],
    last: usize,
) -> Option<TakenLine>
    requires { (next + 18 ≤ length words.old) × (last + 11 ≤ length kinds.old) }
    ensures { LineTook (line_of (symbols line.now)) words.old next kinds.old last words.new kinds.new result }
{
    let board = symbol_at(line, 0);
    let Symbol::Number(number) = board.symbol? else {
        return None;
    };
    let mark = symbol_at(line, board.next);
    if mark.symbol == Some(Symbol::Colon) {
        return take_kind(line, mark.next, number, kinds, last).map(TakenLine::Kind);
    }
    take_relation(line, board.next, number, words, next).map(TakenLine::Relation)
}

// Gathers the words of the lines after the first, or answers the number of the first malformed line.
fn gather_from(
    text: &[u8],
    boards: u16,
    words: &mut [u16],
    kinds: &mut [u16],
) -> Result<Gathered, usize>
    requires { (length words.old ≡ most_words) × (length kinds.old ≡ kinds_room) }
    ensures { Gathers (parts_of boards (lines_from 2 (lines_of text.now))) words.new kinds.new result }
{
    let mut gathered = Gathered {
        boards,
        relations: Section {
            lines: 0,
            end: HEADER_WORDS,
        },
        kinds: Section { lines: 0, end: 0 },
    };
    let mut rest = text;
    while !rest.is_empty() {
        let (line, after) = split_line(rest);
        let (next, last) = (gathered.relations.end, gathered.kinds.end);
        let taken = take_line(line, words, next, kinds, last).ok_or(gathered.next_line())?;
        gathered.count(taken);
        rest = after;
    }
    Ok(gathered)
}

// Gathers the words of a text's lines, those of relation lines after room for a header, or answers the number of the first malformed line.
pub fn gather(text: &[u8], words: &mut [u16], kinds: &mut [u16]) -> Result<Gathered, usize>
    requires { (length words.old ≡ most_words) × (length kinds.old ≡ kinds_room) }
    ensures { Gathers (sheet_parts (lines_of text.now)) words.new kinds.new result }
{
    let (first, rest) = split_line(text);
    let boards = open_line(first).ok_or(FIRST_LINE)?;
    gather_from(rest, boards, words, kinds)
}
