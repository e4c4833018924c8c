// One kind code means one number of ways: kind lines are compared with those before them. Any word is a code, so there is no table of codes.
#![tactic(auto)]

ghost use Rattle.std.specs.Prelude.{◌≡◌, ◌≤◌};
ghost use Rattle.rules.specs.Descriptions.{disagrees};
ghost use Rattle.rules.specs.Relations.{some_of};
ghost use Rattle.kinds.specs.Lines.{line_at};
ghost use Rattle.arities.specs.Arities.{differ, WithinWords, SomeFirst, WithFirst, SomeFill, WithAll, FirstTold};

use kinds::{KindLine, kind_at};

// Tells whether two lines have one code and different numbers of ways.
#[tactic(auto, using(crate::proofs::Comparing::codes_apart, crate::proofs::Comparing::codes_same))]
fn disagree(line: KindLine, other: KindLine) -> bool
    requires { (line.first ≤ line.end) × (other.first ≤ other.end) }
    ensures { result ≡ differ line other }
{
    line.code == other.code && line.end - line.first != other.end - other.first
}

// Tells whether the line disagrees with one of the first `passed` kind lines of the section.
fn disagrees_before(words: &[u16], passed: usize, line: KindLine) -> bool
    requires { WithinWords words.now line × SomeFirst passed words.now }
    ensures { WithFirst passed words.now (λ ks. result ≡ some_of (disagrees (line_at words.now line)) ks) }
{
    let mut found = false;
    let mut at = 0;
    for _i in 0..passed {
        let other = kind_at(words, at);
        found |= disagree(line, other);
        at = other.end;
    }
    found
}

// Where the first of the `count` kind lines of the section begins that disagrees with an earlier one.
pub fn first_disagreeing(count: usize, words: &[u16]) -> Option<usize>
    requires { SomeFill count words.now }
    ensures { WithAll count words.now (λ ks. FirstTold ks result) }
{
    let mut at = 0;
    for passed in 0..count {
        let line = kind_at(words, at);
        if disagrees_before(words, passed, line) {
            return Some(at);
        }
        at = line.end;
    }
    None
}
