// The symbols of a typed line, one after the other.
#![tactic(auto)]

ghost use Rattle.std.specs.Prelude.{◌≡◌, ◌≤◌, Some, None, not, nat_eq, length, map, position};
ghost use Rattle.std.specs.List.{prefix_len};
ghost use Rattle.std.specs.Str.{bytes_eq};
ghost use Rattle.typed.specs.Symbols.{blank, if_number, number_of, symbol_of, parts};
ghost use Rattle.symbols.specs.Tokens.{mark, token, padded};

// The digits of the largest number that may be typed.
const MOST_DIGITS: usize = 5;

// The word that the first line begins with.
const BOARDS: &[u8] = b"boards";

// The words for the codes of an expression, in their order.
const WORDS: [&[u8]; 8] = [
    b"same", b"above", b"below", b"side", b"or", b"and", b"not", b"inv",
];

// A colon, a parenthesis, a word or a number; `Word` has the code of an expression that the word is for.
#[derive(Clone, Copy, Debug, PartialEq, Eq)]
pub enum Symbol {
    Boards,
    Colon,
    LeftParen,
    RightParen,
    // A run of bytes that is neither a word nor a number.
    Unknown,
    Word(u16),
    Number(u16),
}

// A symbol of a line, or none where the line ends, and the place after it.
#[derive(Clone, Copy, Debug, PartialEq, Eq)]
pub struct Token {
    pub symbol: Option<Symbol>,
    pub next: usize,
}

// Whether a run of bytes has a leading zero.
#[tactic(auto, unfolding(crate::specs::Tokens::padded))]
fn padded(run: &[u8]) -> bool
    ensures { result ≡ padded run.now }
{
    matches!(run, [b'0', _, ..])
}

// The number that a run of bytes spells, if it spells one: at most five digits, the first of several no zero.
fn number_of(run: &[u8]) -> Option<u16>
    ensures { result ≡ if_number (number_of run.now) Some None }
{
    if run.is_empty() || MOST_DIGITS < run.len() || padded(run) {
        return None;
    }
    let mut value: u32 = 0;
    for &byte in run {
        value = 10 * value + char::from(byte).to_digit(10)?;
    }
    u16::try_from(value).ok()
}

// Whether two runs of bytes are the same.
// Stays: a loop in place of `==`, which is a call for each word and slower.
fn same(word: &[u8], run: &[u8]) -> bool
    ensures { result ≡ bytes_eq word.now run.now }
{
    if word.len() != run.len() {
        return false;
    }
    for i in 0..word.len() {
        if word[i] != run[i] {
            return false;
        }
    }
    true
}

// The place of a run of bytes among some words.
fn place_among(words: &[&[u8]], run: &[u8]) -> Option<usize>
    ensures { result ≡ position (λ w. bytes_eq w run.now) (map (λ w. w.now) words.now) }
{
    words.iter().position(|word| same(word, run))
}

// The symbol that a run of bytes spells.
fn symbol_of(run: &[u8]) -> Symbol
    ensures { result ≡ mark (symbol_of run.now) }
{
    if same(BOARDS, run) {
        return Symbol::Boards;
    }
    match place_among(&WORDS, run) {
        Some(code) => Symbol::Word(code as u16),
        None => number_of(run).map_or(Symbol::Unknown, Symbol::Number),
    }
}

// Whether a word or a number ends before this byte.
// Stays: an arm for each byte, since the bytes of an or-pattern are compared one by one, which is slower.
#[tactic(auto, unfolding(typed::specs::Symbols::parts))]
fn parts(byte: u8) -> bool
    ensures { result ≡ parts byte }
{
    match byte {
        b' ' => true,
        b':' => true,
        b'(' => true,
        b')' => true,
        _ => false,
    }
}

// How many blanks are at the front of some bytes.
fn blanks(bytes: &[u8]) -> usize
    ensures counted { result ≡ prefix_len (λ b. nat_eq b blank) bytes.now }
    ensures within { result ≤ length bytes.now }
{
    bytes.iter().take_while(|byte| **byte == b' ').count()
}

// The length of the word or number that some bytes begin with.
fn run_length(bytes: &[u8]) -> usize
    ensures counted { result ≡ prefix_len (λ b. not (parts b)) bytes.now }
    ensures within { result ≤ length bytes.now }
{
    bytes.iter().take_while(|byte| !parts(**byte)).count()
}

// The first symbol of a line from a place on, and the place after it.
// Inlined, since what a call answers goes through memory, which makes each symbol slower.
#[inline(always)]
pub fn symbol_at(line: &[u8], at: usize) -> Token
    requires { at ≤ length line.now }
    ensures { result ≡ token line.now at }
{
    let from = at + blanks(&line[at..]);
    let single = |symbol: Symbol| Token {
        symbol: Some(symbol),
        next: from + 1,
    };
    match line.get(from) {
        None => Token {
            symbol: None,
            next: from,
        },
        Some(b':') => single(Symbol::Colon),
        Some(b'(') => single(Symbol::LeftParen),
        Some(b')') => single(Symbol::RightParen),
        Some(_) => {
            // Stays: the first byte is counted here, since looked at twice it makes each word and number slower.
            let end = from + 1 + run_length(&line[from + 1..]);
            Token {
                symbol: Some(symbol_of(&line[from..end])),
                next: end,
            }
        }
    }
}
