// Rules 1 and 4: their bounds stay, whatever the table, so that they strike once.
#![tactic(auto)]

ghost use Rattle.rules.specs.Closing.{rules1, rules4};
ghost use Rattle.passes.specs.Passes.{Ready, Once};
ghost use Rattle.kinds.specs.Sections.{HasLines, WithLines};

use lines::relation_line;
use relations::RelationSet;

// Rule 1: each board is the same as itself.
pub fn rules1(v: usize, cells: &mut [RelationSet]) -> u32
    requires { Ready v cells.old }
    ensures { Once v (rules1 v) cells.old 0 cells.new result }
{
    let mut struck = 0;
    for p in 0..v {
        let k = v * p + p;
        struck += tables::narrow(cells, k, RelationSet::E);
    }
    struck
}

// Rule 4: each relation line's cell lies within its set. As many relation lines as `count` fill the words, so each of them is good.
pub fn rules4(v: usize, count: usize, words: &[u16], cells: &mut [RelationSet]) -> u32
    requires { Ready v cells.old × HasLines v count words.now }
    ensures { WithLines v count words.now (λ ls. Once v (rules4 ls) cells.old 0 cells.new result) }
{
    let mut struck = 0;
    let mut at = 0;
    for _ in 0..count {
        let line = relation_line(&words[at..]);
        let k = v * line.p + line.q;
        struck += tables::narrow(cells, k, line.allowed);
        at = words.len() - line.rest;
    }
    struck
}
