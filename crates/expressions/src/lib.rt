// Expressions in prefix order.
#![tactic(auto)]

ghost use Rattle.std.specs.Prelude.{◌≡◌, ◌^◌, ◌/◌, ◌%◌, ◌≤◌, ◌<◌, nat_eq, length};
ghost use Rattle.rules.specs.Descriptions.{most_expression_words};
ghost use Rattle.rules.specs.Expressions.{relation, codes, code, expression};
ghost use Rattle.expressions.specs.Codes.{operands, unary, binary, Counts};
ghost use Rattle.expressions.specs.Found.{expression_found, scan_found};

use relations::RelationSet;

// How many codes there are.
const CODES: usize = 8;

// The set that each code stands for; nothing for an operator.
const SETS: [RelationSet; CODES] = [
    RelationSet::E,
    RelationSet::A,
    RelationSet::B,
    RelationSet::S,
    RelationSet::EMPTY, // union
    RelationSet::EMPTY, // intersection
    RelationSet::EMPTY, // complement
    RelationSet::EMPTY, // inverse
];

// The codes of the operators: union and intersection have two operands, complement and inverse one.
// Stays: numbers and not an enum, which is no plainer here: a word is asked for how many operands its code has, in one test of a bit or one entry of a table.
const UNION: usize = 4;

const INTERSECTION: usize = 5;

const COMPLEMENT: usize = 6;

const INVERSE: usize = 7;

// The codes with one operand, and all codes with operands, as bits: a test of a bit is quicker than a table in memory.
const ONE_OPERAND: u32 = (1 << COMPLEMENT) + (1 << INVERSE);

const OPERATORS: u32 = ONE_OPERAND + (1 << UNION) + (1 << INTERSECTION);

// Tells whether a code is among some codes, each of which has its bit.
fn among(some: u32, word: usize) -> bool
    requires { word < 32 }
    ensures { result ≡ nat_eq (some / 2 ^ word % 2) 1 }
{
    (some >> word) % 2 == 1
}

// The set that a code without operands stands for.
fn set_of(word: usize) -> RelationSet
    requires { (word < length codes) × (operands (code word) ≡ 0) }
    ensures { code word ≡ relation result }
{
    SETS[word]
}

// What an operator makes of its one operand.
fn apply_one(word: usize, x: RelationSet) -> RelationSet
    requires { (word < length codes) × (operands (code word) ≡ 1) }
    ensures { result ≡ unary (code word) x }
{
    if word == COMPLEMENT { !x } else { x.converse() }
}

// What an operator makes of its two operands.
fn apply_two(word: usize, x: RelationSet, y: RelationSet) -> RelationSet
    requires { (word < length codes) × (operands (code word) ≡ 2) }
    ensures { result ≡ binary (code word) x y }
{
    if word == UNION { x | y } else { x & y }
}

// Reads the expression at the front of the words: an operator is followed by its operands, each a whole expression. Gives its set and the number of words
// after it; or, where there is none, the number of words from the first that goes on with none. Where an operand fails, the whole does.
pub fn evaluate(words: &[u16]) -> Result<(RelationSet, usize), usize>
    requires { length words.now ≤ most_expression_words }
    ensures { result ≡ expression_found (expression words.now) }
{
    if words.is_empty() {
        return Err(0);
    }
    let word = usize::from(words[0]);
    if CODES <= word {
        return Err(words.len());
    }
    if !among(OPERATORS, word) {
        return Ok((set_of(word), words.len() - 1));
    }
    let (x, left) = evaluate(&words[1..])?;
    if among(ONE_OPERAND, word) {
        return Ok((apply_one(word, x), left));
    }
    let second = words.len() - left;
    let (y, rest) = evaluate(&words[second..])?;
    Ok((apply_two(word, x, y), rest))
}

// How many operands each code takes.
const OPERANDS: [u8; CODES] = [
    0, // the relations
    0, 0, 0, 2, // union
    2, // intersection
    1, // complement
    1, // inverse
];

// Gives how many operands the codes take. They are lent to `operands_of`, so that a loop lays them out once.
fn operand_counts() -> [u8; CODES]
    ensures { Counts result }
{
    OPERANDS
}

// How many operands a code takes, by those of all codes.
fn operands_of(counts: &[u8; CODES], word: usize) -> u32
    requires { Counts counts.now × (word < length codes) }
    ensures { result ≡ operands (code word) }
{
    counts[word] as u32
}

// Tells whether the words are one whole expression, without its set, or the number of words from the first that does not go on with one. It counts the
// operands that are still needed: a code is one of these, and needs its own.
#[tactic(auto, using(crate::proofs::Scanning::needing_none, crate::proofs::Scanning::needing_some))]
pub fn scan(words: &[u16]) -> Result<(), usize>
    requires { length words.now ≤ most_expression_words }
    ensures { result ≡ scan_found (expression words.now) }
{
    let counts = operand_counts();
    let mut needed: u32 = 1;
    for i in 0..words.len() {
        let word = usize::from(words[i]);
        if needed == 0 || CODES <= word {
            return Err(words.len() - i);
        }
        needed = needed - 1 + operands_of(&counts, word);
    }
    if needed == 0 { Ok(()) } else { Err(0) }
}
