// Rule 5: a panel's ways lie below it and beside each other. Its bounds stay, whatever the table, so that it strikes once.
#![tactic(auto)]

ghost use Rattle.std.specs.Prelude.{◌≡◌};
ghost use Rattle.rules.specs.Closing.{rule5, rules5};
ghost use Rattle.passes.specs.Passes.{Ready, Once};
ghost use Rattle.kinds.specs.Lines.{line_at, StandsIn};
ghost use Rattle.kinds.specs.Sections.{HasKinds, WithKinds};
ghost use Rattle.ways.specs.Ways.{apart};

use kinds::{KindLine, kind_at};
use relations::RelationSet;

// What rule 5 allows two ways in the places i and j: side, or anything for one and the same place.
#[tactic(auto, unfolding(rules::specs::Relations::relations, rules::specs::Relations::set_to, rules::specs::Relations::set_of, rules::specs::Relations::full))]
fn apart(i: usize, j: usize) -> RelationSet
    ensures { result ≡ apart i j }
{
    if i == j {
        RelationSet::FULL
    } else {
        RelationSet::S
    }
}

// Rule 5 of one kind line: its ways lie below the panel and beside each other.
fn rule5(v: usize, words: &[u16], line: KindLine, cells: &mut [RelationSet]) -> u32
    requires { Ready v cells.old × StandsIn v words.now line }
    ensures { Once v (rule5 (line_at words.now line)) cells.old 0 cells.new result }
{
    let ways = &words[line.first..line.end];
    let mut struck = 0;
    for (i, &way) in ways.iter().enumerate() {
        let y = usize::from(way);
        let k = v * line.p + y;
        struck += tables::narrow(cells, k, RelationSet::A);
        for (j, &other) in ways.iter().enumerate() {
            let l = v * y + usize::from(other);
            struck += tables::narrow(cells, l, apart(i, j));
        }
    }
    struck
}

// Rule 5 of every kind line: its ways lie below the panel and beside each other.
pub fn rules5(v: usize, count: usize, words: &[u16], cells: &mut [RelationSet]) -> u32
    requires { Ready v cells.old × HasKinds v count words.now }
    ensures { WithKinds v count words.now (λ ks. Once v (rules5 ks) cells.old 0 cells.new result) }
{
    let mut struck = 0;
    let mut at = 0;
    for _ in 0..count {
        let line = kind_at(words, at);
        struck += rule5(v, words, line, cells);
        at = line.end;
    }
    struck
}
