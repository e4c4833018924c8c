// Rule 7: panels that are the same have one code, and the same ways in the same places. What it strikes is put on the list of pairs that lost something.
#![tactic(auto)]

ghost use Rattle.std.specs.Prelude.{◌≡◌, ◌++◌, ◌<◌};
ghost use Rattle.rules.specs.Descriptions.{most_boards, SameArity};
ghost use Rattle.rules.specs.Closing.{rules2, rule7, rules7};
ghost use Rattle.passes.specs.Passes.{Ready, Idles};
ghost use Rattle.kinds.specs.Lines.{line_at, StandsIn};
ghost use Rattle.by_board.specs.Found.{Numbers};
ghost use Rattle.moves.specs.Moves.{Marks, Mutual, Went, Matched, MatchedFor};
ghost use Rattle.moves.specs.Visits.{SiteOf, VisitedOf};
ghost use Rattle.same_panels.specs.Pairs.{Facing, paired, joined, Joined};
ghost use Rattle.same_panels.specs.Visits.{Beside, Each, ByWays, Parted, Unlisted, FirstBeside, AtFirst};

use bits::NumberSet;
use by_board::KindLines;
use kinds::KindLine;
use moves::{Emptied, strike};
use relations::RelationSet;
use tables::cell;

// Tells whether each two ways in the same place may be the same.
fn ways_match(v: usize, ways: &[u16], others: &[u16], cells: &[RelationSet]) -> bool
    requires { Ready v cells.now × Facing v ways.now others.now }
    ensures { result ≡ paired v cells.now ways.now others.now }
{
    for (i, &way) in ways.iter().enumerate() {
        if (cell(v, usize::from(way), usize::from(others[i]), cells) & RelationSet::E).is_empty() {
            return false;
        }
    }
    true
}

// Stays: a table and its list are two parameters here and below: in one struct each contract and loop would say again that the lent slices are the same ones.
// Strikes all but same from the cells of each two ways in the same place. Tells whether one of them is empty then.
fn match_ways(
    v: usize,
    ways: &[u16],
    others: &[u16],
    cells: &mut [RelationSet],
    marks: &mut [NumberSet],
) -> Result<(), Emptied>
    requires { Mutual v cells.old × Marks v marks.old × Facing v ways.now others.now }
    ensures { Went (Idles v (joined v ways.now others.now)) v (λ n w. Joined v ways.now others.now w) cells.old marks.old cells.new marks.new result }
{
    for (i, &way) in ways.iter().enumerate() {
        let p = usize::from(way);
        let q = usize::from(others[i]);
        strike(v, p, q, RelationSet::E, cells, marks)?;
    }
    Ok(())
}

// Stays: v and words beside the two lines, here and in `rule7_unlisted`: their kind lines as one value would bring a count and an index that nothing here reads.
// Rule 7 of two kind lines: if their panels are the same, code and ways agree. Lines of one code have as many ways. Tells whether an empty cell was met, as
// all below do.
fn rule7(
    v: usize,
    words: &[u16],
    line: KindLine,
    other: KindLine,
    cells: &mut [RelationSet],
    marks: &mut [NumberSet],
) -> Result<(), Emptied>
    requires { Mutual v cells.old × Marks v marks.old × StandsIn v words.now line × StandsIn v words.now other × SameArity (line_at words.now line) (line_at words.now other) }
    ensures { Went (Idles v (rules2 v ++ rule7 v (line_at words.now line) (line_at words.now other))) v (Matched v (line_at words.now line) (line_at words.now other)) cells.old marks.old cells.new marks.new result }
{
    let x = cell(v, line.p, other.p, cells);
    if (x & RelationSet::E).is_empty() {
        return Ok(());
    }
    let ways = &words[line.first..line.end];
    let others = &words[other.first..other.end];
    if line.code != other.code || !ways_match(v, ways, others, cells) {
        return strike(v, line.p, other.p, RelationSet::NOT_SAME, cells, marks);
    }
    if x != RelationSet::E {
        return Ok(());
    }
    match_ways(v, ways, others, cells, marks)
}

// Rule 7 of kind line n beside each of a set.
fn rule7_beside(
    lines: &KindLines,
    n: usize,
    others: NumberSet,
    cells: &mut [RelationSet],
    marks: &mut [NumberSet],
) -> Result<(), Emptied>
    requires { SiteOf lines.now cells.old marks.old × (n < lines.now.count) × Numbers lines.now.count others }
    ensures { VisitedOf rules7 lines.now (λ ks. Beside lines.now.boards lines.now.words.now n others) cells.old marks.old cells.new marks.new result }
{
    let line = lines.line(n);
    let mut left = others;
    while let Some(o) = left.pop() {
        rule7(lines.boards, lines.words, line, lines.line(o), cells, marks)?;
    }
    Ok(())
}

// Rule 7 of each kind line of one set beside each of another.
fn rule7_each(
    lines: &KindLines,
    numbers: NumberSet,
    others: NumberSet,
    cells: &mut [RelationSet],
    marks: &mut [NumberSet],
) -> Result<(), Emptied>
    requires { SiteOf lines.now cells.old marks.old × Numbers lines.now.count numbers × Numbers lines.now.count others }
    ensures { VisitedOf rules7 lines.now (λ ks. Each lines.now.boards lines.now.words.now numbers others) cells.old marks.old cells.new marks.new result }
{
    // A copy, so that the compiler need not look anew, after each strike, at what no strike changes.
    let copied = *lines;
    let mut left = numbers;
    while let Some(n) = left.pop() {
        rule7_beside(&copied, n, others, cells, marks)?;
    }
    Ok(())
}

// Rule 7 of the kind lines that have the boards a and b as ways in one place.
fn rule7_by_ways(
    lines: &KindLines,
    a: usize,
    b: usize,
    cells: &mut [RelationSet],
    marks: &mut [NumberSet],
) -> Result<(), Emptied>
    requires { SiteOf lines.now cells.old marks.old × (a < most_boards) × (b < most_boards) }
    ensures { VisitedOf rules7 lines.now (λ ks. ByWays lines.now.boards lines.now.words.now lines.now.index.now a b) cells.old marks.old cells.new marks.new result }
{
    let mut left = lines.index.places(a) & lines.index.places(b);
    while let Some(i) = left.pop() {
        let numbers = lines.index.with_way(a, i);
        let others = lines.index.with_way(b, i);
        rule7_each(lines, numbers, others, cells, marks)?;
    }
    Ok(())
}

// Rule 7 of the kind lines that read the cell of a and b: those with a and b as ways in one place, if they are no longer the same, and those with the panels
// a and b, if they must be. Lines whose codes or numbers of ways differ are known to be apart already.
pub fn rule7_for(
    lines: &KindLines,
    a: usize,
    b: usize,
    cells: &mut [RelationSet],
    marks: &mut [NumberSet],
) -> Result<(), Emptied>
    requires { SiteOf lines.now cells.old marks.old × (a < lines.now.boards) × (b < lines.now.boards) × Parted lines.now.boards lines.now.count lines.now.words.now marks.old cells.old }
    ensures { VisitedOf rules7 lines.now (λ ks. MatchedFor lines.now.boards ks a b) cells.old marks.old cells.new marks.new result }
{
    let x = cell(lines.boards, a, b, cells);
    if x == RelationSet::E {
        let numbers = lines.index.with_panel(a);
        let others = lines.index.with_panel(b);
        return rule7_each(lines, numbers, others, cells, marks);
    }
    if !(x & RelationSet::E).is_empty() {
        return Ok(());
    }
    rule7_by_ways(lines, a, b, cells, marks)
}

// Rule 7 of two kind lines that no pair on the list would bring up: their codes differ, or they have one panel. Of others nothing is said.
fn rule7_unlisted(
    v: usize,
    words: &[u16],
    line: KindLine,
    other: KindLine,
    cells: &mut [RelationSet],
    marks: &mut [NumberSet],
) -> Result<(), Emptied>
    requires { Mutual v cells.old × Marks v marks.old × StandsIn v words.now line × StandsIn v words.now other × SameArity (line_at words.now line) (line_at words.now other) }
    ensures { Went (Idles v (rules2 v ++ rule7 v (line_at words.now line) (line_at words.now other))) v (Unlisted v (line_at words.now line) (line_at words.now other)) cells.old marks.old cells.new marks.new result }
{
    if line.code == other.code && line.p != other.p {
        return Ok(());
    }
    rule7(v, words, line, other, cells, marks)
}

// The same of kind line n beside each kind line.
fn rule7_first_beside(
    lines: &KindLines,
    n: usize,
    cells: &mut [RelationSet],
    marks: &mut [NumberSet],
) -> Result<(), Emptied>
    requires { SiteOf lines.now cells.old marks.old × (n < lines.now.count) }
    ensures { VisitedOf rules7 lines.now (λ ks. FirstBeside lines.now.boards lines.now.count lines.now.words.now n) cells.old marks.old cells.new marks.new result }
{
    let line = lines.line(n);
    for o in 0..lines.count {
        rule7_unlisted(lines.boards, lines.words, line, lines.line(o), cells, marks)?;
    }
    Ok(())
}

// Rule 7 of every two kind lines that no pair on the list would bring up: their codes differ, or they have one panel. It is for a first closing.
pub fn rule7_at_first(
    lines: &KindLines,
    cells: &mut [RelationSet],
    marks: &mut [NumberSet],
) -> Result<(), Emptied>
    requires { SiteOf lines.now cells.old marks.old }
    ensures { VisitedOf rules7 lines.now (AtFirst lines.now.boards) cells.old marks.old cells.new marks.new result }
{
    for n in 0..lines.count {
        rule7_first_beside(lines, n, cells, marks)?;
    }
    Ok(())
}
