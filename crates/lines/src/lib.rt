// Relation lines, each at the front of the words of its section: one is tested first, and read when it strikes.
#![tactic(auto)]

ghost use Rattle.std.specs.Prelude.{◌≡◌};
ghost use Rattle.rules.specs.Descriptions.{relation_line};
ghost use Rattle.lines.specs.Found.{relation_told, FrontTells, GoodLine, Finds};

use answers::limits::{LINE_WORDS, MOST_EXPRESSION_WORDS};
use answers::refusals::{Fault, Refusal};
use relations::RelationSet;

// A relation line: the relation of p to q is one of the set `allowed`. So many words stand after it.
#[derive(Clone, Copy, Debug, PartialEq, Eq)]
pub struct RelationLine {
    pub p: usize,
    pub q: usize,
    pub allowed: RelationSet,
    pub rest: usize,
}

// Tests all of the relation line at the front of the words but its expression, for boards below v: its length, that the words hold it, and its boards.
// Gives the end of the line.
fn front(v: usize, words: &[u16]) -> Result<usize, Refusal>
    ensures { FrontTells v words.now result }
{
    if words.len() < LINE_WORDS {
        return Err(Fault::Unfit.at(words.len()));
    }
    let n = usize::from(words[2]);
    if n < 1 || MOST_EXPRESSION_WORDS < n {
        return Err(Fault::Unfit.at(2));
    }
    if words.len() - LINE_WORDS < n {
        return Err(Fault::Unfit.at(words.len()));
    }
    let p = usize::from(words[0]);
    if v <= p {
        return Err(Fault::NoBoard.at(0));
    }
    let q = usize::from(words[1]);
    if v <= q {
        return Err(Fault::NoBoard.at(1));
    }
    Ok(LINE_WORDS + n)
}

// Tests the relation line at the front of the words, for boards below v, and counts the words after it. The set of its expression is not found.
pub fn relation_told(v: usize, words: &[u16]) -> Result<usize, Refusal>
    ensures { result ≡ relation_told (relation_line v words.now) }
{
    let end = front(v, words)?;
    match expressions::scan(&words[LINE_WORDS..end]) {
        Ok(()) => Ok(words.len() - end),
        Err(left) => Err(Fault::NoExpression.at(end - left)),
    }
}

// Reads the relation line at the front of the words, which was tested before and is good.
pub fn relation_line(words: &[u16]) -> RelationLine
    requires { GoodLine words.now }
    ensures { Finds words.now result }
{
    let end = LINE_WORDS + usize::from(words[2]);
    let (allowed, _) = expressions::evaluate(&words[LINE_WORDS..end]).unwrap();
    RelationLine {
        p: usize::from(words[0]),
        q: usize::from(words[1]),
        allowed,
        rest: words.len() - end,
    }
}
