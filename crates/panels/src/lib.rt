// Rule 6: nothing lies below a panel but its ways and what is below them. Each pair that loses something by it is put on the list.
#![tactic(auto)]

ghost use Rattle.std.specs.Prelude.{◌≡◌, ◌++◌, ◌≤◌, ◌<◌, length};
ghost use Rattle.rules.specs.Closing.{reaches, rules2, rule6, rules6};
ghost use Rattle.passes.specs.Passes.{Ready, Idles};
ghost use Rattle.kinds.specs.Lines.{line_at, Below, StandsIn};
ghost use Rattle.by_board.specs.Found.{numbered, Numbers};
ghost use Rattle.moves.specs.Moves.{Marks, Mutual, Went, Fed, FedFor};
ghost use Rattle.moves.specs.Visits.{SiteOf, VisitedOf};
ghost use Rattle.panels.specs.Ways.{FirstReaching};
ghost use Rattle.panels.specs.Visits.{FedEach, FedWays, FedBare, FedWithout};

use bits::NumberSet;
use by_board::KindLines;
use kinds::{KindLine, way};
use moves::{Emptied, strike};
use relations::RelationSet;
use tables::cell;

// Tells whether a set has E or A.
#[tactic(auto, using(crate::proofs::Feeding::reaches_meet))]
fn reaches(x: RelationSet) -> bool
    ensures { result ≡ reaches x }
{
    !(x & RelationSet::AT_OR_ABOVE).is_empty()
}

// Finds the first place, from `from` on, whose way may be at or above the board z.
fn reaching(v: usize, ways: &[u16], z: usize, from: usize, cells: &[RelationSet]) -> Option<usize>
    requires { Ready v cells.now × Below v ways.now × (z < v) × (from ≤ length ways.now) }
    ensures { FirstReaching v cells.now ways.now z from result }
{
    for i in from..ways.len() {
        if reaches(cell(v, way(ways, i), z, cells)) {
            return Some(i);
        }
    }
    None
}

// Rule 6 of one kind line, for one board z: if z is below the panel, it is at or below one of the ways. It sees to the rule, or was left
// at an empty cell.
// Stays: cells and marks are two parameters, here and below; in one struct each contract and loop would say again that the lent slices are the same, which is no
// plainer. The boards, the words and the line are passed each by itself, so that a line is read once for all boards.
fn rule6_at(
    v: usize,
    words: &[u16],
    line: KindLine,
    z: usize,
    cells: &mut [RelationSet],
    marks: &mut [NumberSet],
) -> Result<(), Emptied>
    requires { Mutual v cells.old × Marks v marks.old × StandsIn v words.now line × (z < v) }
    ensures { Went (Idles v (rules2 v ++ rule6 v (line_at words.now line) z)) v (Fed v (line_at words.now line) z) cells.old marks.old cells.new marks.new result }
{
    let x = cell(v, line.p, z, cells);
    if (x & RelationSet::A).is_empty() {
        return Ok(());
    }
    let ways = &words[line.first..line.end];
    let Some(i) = reaching(v, ways, z, 0, cells) else {
        return strike(v, line.p, z, RelationSet::NOT_ABOVE, cells, marks);
    };
    if x != RelationSet::A || reaching(v, ways, z, i + 1, cells).is_some() {
        return Ok(());
    }
    strike(v, way(ways, i), z, RelationSet::AT_OR_ABOVE, cells, marks)
}

// Rule 6 of each kind line in a set of numbers, towards the board z. It sees to each, or was left at an empty cell.
fn rule6_each(
    lines: &KindLines,
    numbers: NumberSet,
    z: usize,
    cells: &mut [RelationSet],
    marks: &mut [NumberSet],
) -> Result<(), Emptied>
    requires { SiteOf lines.now cells.old marks.old × Numbers lines.now.count numbers × (z < lines.now.boards) }
    ensures { VisitedOf rules6 lines.now (λ ks. FedEach lines.now.boards lines.now.words.now numbers z) cells.old marks.old cells.new marks.new result }
{
    // A copy, so that the compiler need not look anew, after each strike, at what no strike changes.
    let copied = *lines;
    let mut left = numbers;
    while let Some(n) = left.pop() {
        rule6_at(copied.boards, copied.words, copied.line(n), z, cells, marks)?;
    }
    Ok(())
}

// Rule 6 of the kind lines that have the board a as a way, towards the board b. It sees to each, or was left at an empty cell.
fn rule6_of_ways(
    lines: &KindLines,
    a: usize,
    b: usize,
    cells: &mut [RelationSet],
    marks: &mut [NumberSet],
) -> Result<(), Emptied>
    requires { SiteOf lines.now cells.old marks.old × (a < lines.now.boards) × (b < lines.now.boards) }
    ensures { VisitedOf rules6 lines.now (λ ks. FedWays lines.now.boards lines.now.words.now lines.now.index.now a b) cells.old marks.old cells.new marks.new result }
{
    let mut left = lines.index.places(a);
    while let Some(i) = left.pop() {
        rule6_each(lines, lines.index.with_way(a, i), b, cells, marks)?;
    }
    Ok(())
}

// Rule 6 of the kind lines that read the cell of a and b: those with a as a way, if it no longer may be at or above b, and those with the panel a, if it
// must be above b. It sees to each, or was left at an empty cell.
#[tactic(auto, using(crate::proofs::Finding::went_panel, crate::proofs::Finding::visit_none, crate::proofs::Finding::went_ways, rules::proofs::Tests::true_T))]
pub fn rule6_for(
    lines: &KindLines,
    a: usize,
    b: usize,
    cells: &mut [RelationSet],
    marks: &mut [NumberSet],
) -> Result<(), Emptied>
    requires { SiteOf lines.now cells.old marks.old × (a < lines.now.boards) × (b < lines.now.boards) }
    ensures { VisitedOf rules6 lines.now (λ ks. FedFor lines.now.boards ks a b) cells.old marks.old cells.new marks.new result }
{
    let x = cell(lines.boards, a, b, cells);
    if x == RelationSet::A {
        return rule6_each(lines, lines.index.with_panel(a), b, cells, marks);
    }
    if reaches(x) {
        return Ok(());
    }
    rule6_of_ways(lines, a, b, cells, marks)
}

// Rule 6 of kind line n for every board, if the line has no ways: nothing lies below it. It sees to the rule, or was left at an empty cell.
fn rule6_bare(
    lines: &KindLines,
    n: usize,
    cells: &mut [RelationSet],
    marks: &mut [NumberSet],
) -> Result<(), Emptied>
    requires { SiteOf lines.now cells.old marks.old × (n < lines.now.count) }
    ensures { VisitedOf rules6 lines.now (λ ks. FedBare lines.now.boards (numbered lines.now.words.now n)) cells.old marks.old cells.new marks.new result }
{
    let line = lines.line(n);
    if line.first < line.end {
        return Ok(());
    }
    for z in 0..lines.boards {
        rule6_at(lines.boards, lines.words, line, z, cells, marks)?;
    }
    Ok(())
}

// Rule 6 of the kind lines that have no ways, for every board: nothing lies below them. It sees to each, or was left at an empty cell.
pub fn rule6_without_ways(
    lines: &KindLines,
    cells: &mut [RelationSet],
    marks: &mut [NumberSet],
) -> Result<(), Emptied>
    requires { SiteOf lines.now cells.old marks.old }
    ensures { VisitedOf rules6 lines.now (FedWithout lines.now.boards) cells.old marks.old cells.new marks.new result }
{
    for n in 0..lines.count {
        rule6_bare(lines, n, cells, marks)?;
    }
    Ok(())
}
