// A typed relation line after its first board: gone over once, its words go to the words of the description.
#![tactic(auto)]

ghost use Rattle.std.specs.Prelude.{◌≡◌, true, not, ◌&&◌, ℕ, ◌+◌, ◌≤◌, ◌<◌, nat_eq, length, drop};
ghost use Rattle.rules.specs.Descriptions.{most_expression_words};
ghost use Rattle.typed.specs.Symbols.{symbols};
ghost use Rattle.typed.specs.Scanning.{joins, last_board, scan};
ghost use Rattle.typed.specs.Sheets.{relation_of};
ghost use Rattle.symbols.specs.Tokens.{told};
ghost use Rattle.taken.specs.Lines.{Took};
ghost use Rattle.relation_texts.specs.Scans.{after, ended, Nothing, Keeps, Held, PutRelation};

use answers::limits::MOST_EXPRESSION_WORDS;
use prefixes::{AND, Item, OR, put_prefix};
use symbols::{Symbol, symbol_at};
use taken::put_start;

// How many parentheses are open, and whether an operand is expected.
#[derive(Clone, Copy, Debug, PartialEq, Eq)]
struct State {
    depth: usize,
    expected: bool,
}

// The words of an expression with their depths, as many as a description has, and how many there are, up to one too many.
// Stays: an array with a count beside it, since there is no heap.
#[derive(Drop)]
struct Expression {
    items: [Item; MOST_EXPRESSION_WORDS],
    count: usize,
}

// Whether the word for a code joins two operands.
#[tactic(auto, using(crate::proofs::Words::joins_or_not), unfolding(typed::specs::Scanning::tightness))]
fn joins(code: u16) -> bool
    ensures { result ≡ joins code }
{
    matches!(code, OR | AND)
}

impl State {
    // The state after a symbol, if the symbol may stand there.
    fn after(self, symbol: Symbol) -> Option<State>
        requires { self.depth < usize.MAX }
        ensures { result ≡ after (told symbol) self }
    {
        let State { depth, expected } = self;
        match symbol {
            Symbol::LeftParen if expected => Some(State {
                depth: depth + 1,
                expected,
            }),
            Symbol::RightParen if !expected => Some(State {
                depth: depth.checked_sub(1)?,
                expected,
            }),
            Symbol::Word(code) if expected != joins(code) => Some(State {
                depth,
                expected: OR <= code,
            }),
            _ => None,
        }
    }
}

impl Expression {
    // No words.
    fn new() -> Expression
        ensures { Nothing result }
    {
        Expression {
            items: [Item { code: 0, depth: 0 }; MOST_EXPRESSION_WORDS],
            count: 0,
        }
    }

    // Keeps a word after those so far, unless they are too many.
    fn keep(&mut self, item: Item)
        requires { self.old.count ≤ most_expression_words + 1 }
        ensures { Keeps item self.old self.new }
    {
        if MOST_EXPRESSION_WORDS <= self.count {
            self.count = MOST_EXPRESSION_WORDS + 1;
            return;
        }
        self.items[self.count] = item;
        self.count += 1;
    }
}

// Whether the board after an expression ends the line, with nothing missing before it.
fn ends(line: &[u8], at: usize, state: State) -> bool
    requires { at ≤ length line.now }
    ensures { (q : ℕ) → last_board (nat_eq state.depth 0 && not state.expected) q (symbols (drop at line.now)) ≡ ended result q }
{
    match state {
        State {
            depth: 0,
            expected: false,
        } => symbol_at(line, at).symbol.is_none(),
        _ => false,
    }
}

// Goes over the line from a place on: the words of the expression with their depths are kept, and the board after it is returned.
// Stays: the expression is lent, since as a part of what is returned it was copied for each line.
fn scan(line: &[u8], at: usize, expression: &mut Expression) -> Option<u16>
    requires inside { at ≤ length line.now }
    requires empty { Nothing expression.old }
    ensures { Held (scan 0 true (symbols (drop at line.now))) expression.new result }
{
    let mut next = at;
    let mut state = State {
        depth: 0,
        expected: true,
    };
    loop {
        let token = symbol_at(line, next);
        let symbol = token.symbol?;
        match symbol {
            Symbol::Number(board) => {
                return ends(line, token.next, state).then_some(board);
            }
            Symbol::Word(code) => expression.keep(Item {
                code,
                depth: state.depth,
            }),
            _ => {}
        }
        state = state.after(symbol)?;
        next = token.next;
    }
}

// Puts the words of a relation line from a place on: of an expression with too many words only how many are counted.
fn put_relation(
    expression: &Expression,
    words: &mut [u16],
    next: usize,
    first: u16,
    second: u16,
) -> usize
    requires few { expression.now.count ≤ most_expression_words + 1 }
    requires room { next + 18 ≤ length words.old }
    ensures { PutRelation expression.now words.old next first second words.new result }
{
    let count = expression.count;
    let after = put_start(words, next, first, second, count as u16);
    if MOST_EXPRESSION_WORDS < count {
        return after;
    }
    put_prefix(&expression.items[..count], words, after);
    after + count
}

// Takes a relation line from the place after its first board on: its words go to the words lent, from a place on.
pub fn take_relation(
    line: &[u8],
    at: usize,
    board: u16,
    words: &mut [u16],
    next: usize,
) -> Option<usize>
    requires { (at ≤ length line.now) × (next + 18 ≤ length words.old) }
    ensures { Took most_expression_words (relation_of board (scan 0 true (symbols (drop at line.now)))) words.old next words.new result }
{
    let mut expression = Expression::new();
    let last = scan(line, at, &mut expression)?;
    Some(put_relation(&expression, words, next, board, last))
}
