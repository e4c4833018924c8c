// Closing by the list of pairs that lost something: only what reads them is looked at again.
#![tactic(auto)]

ghost use Rattle.std.specs.Prelude.{◌<◌, ◌≤◌};
ghost use Rattle.rules.specs.Descriptions.{most_kinds};
ghost use Rattle.passes.specs.Passes.{Ready};
ghost use Rattle.sweeps.specs.Sweeps.{Selves};
ghost use Rattle.kinds.specs.Sections.{HasAgreed, WithKinds};
ghost use Rattle.by_board.specs.Found.{Listed};
ghost use Rattle.moves.specs.Moves.{Marks};
ghost use Rattle.moves.specs.Visits.{SiteOf};
ghost use Rattle.same_panels.specs.Visits.{Parted};
ghost use Rattle.rounds.specs.Rounds.{AgainOf, LinesSeen, Seen, Owing, drained, rules_again, after_rounds};

use bits::NumberSet;
use by_board::{Index, KindLines};
use moves::{Emptied, marks_room, take_pair};
use panels::{rule6_for, rule6_without_ways};
use relations::RelationSet;
use same_panels::{rule7_at_first, rule7_for};
use sweeps::{level_all, through};
use tables::members;

// Visits the kind lines that read the cell of p and q, from either side.
fn revisit_lines(
    lines: &KindLines,
    p: usize,
    q: usize,
    cells: &mut [RelationSet],
    marks: &mut [NumberSet],
) -> Result<(), Emptied>
    requires { SiteOf lines.now cells.old marks.old × (p < lines.now.boards) × (q < lines.now.boards) × Parted lines.now.boards lines.now.count lines.now.words.now marks.old cells.old }
    ensures { AgainOf lines.now (λ ks. LinesSeen lines.now.boards ks p q) cells.old marks.old cells.new marks.new result }
{
    rule6_for(lines, p, q, cells, marks)?;
    rule6_for(lines, q, p, cells, marks)?;
    rule7_for(lines, p, q, cells, marks)
}

// Visits what reads the cell of p and q, from either side.
fn revisit(
    lines: &KindLines,
    p: usize,
    q: usize,
    cells: &mut [RelationSet],
    marks: &mut [NumberSet],
) -> Result<(), Emptied>
    requires { SiteOf lines.now cells.old marks.old × (p < lines.now.boards) × (q < lines.now.boards) × Parted lines.now.boards lines.now.count lines.now.words.now marks.old cells.old }
    ensures { AgainOf lines.now (λ ks. Seen lines.now.boards ks p q) cells.old marks.old cells.new marks.new result }
{
    through(lines.boards, p, q, cells, marks)?;
    if lines.count == 0 {
        return Ok(());
    }
    revisit_lines(lines, p, q, cells, marks)
}

// Takes one pair after the other off the list and visits what reads it, until nothing is on the list. Tells whether an empty cell was met.
pub fn drain(
    lines: &KindLines,
    cells: &mut [RelationSet],
    marks: &mut [NumberSet],
) -> Result<(), Emptied>
    requires { SiteOf lines.now cells.old marks.old × Owing lines.now.boards lines.now.count lines.now.words.now marks.old cells.old }
    ensures { WithKinds lines.now.boards lines.now.count lines.now.words.now (λ ks. drained lines.now.boards ks cells.old cells.new marks.new result) }
{
    while let Some((p, q)) = take_pair(lines.boards, marks) {
        revisit(lines, p, q, cells, marks)?;
    }
    Ok(())
}

// The first visits: rule 2 of every two boards, which makes the list, and the rules of kind lines that no pair on it would bring up. Then the list is drained.
fn settle(
    lines: &KindLines,
    cells: &mut [RelationSet],
    marks: &mut [NumberSet],
) -> Result<(), Emptied>
    requires { Ready lines.now.boards cells.old × Selves lines.now.boards cells.old × Marks lines.now.boards marks.old × Listed lines.now.boards lines.now.count lines.now.words.now lines.now.index.now }
    ensures { WithKinds lines.now.boards lines.now.count lines.now.words.now (λ ks. drained lines.now.boards ks cells.old cells.new marks.new result) }
{
    level_all(lines.boards, cells, marks)?;
    rule6_without_ways(lines, cells, marks)?;
    rule7_at_first(lines, cells, marks)?;
    drain(lines, cells, marks)
}

// Follows rules 2, 6, 7 and 3 until none strikes anything, and says how many relations they struck. `words` are the `count` kind lines.
pub fn rounds(
    v: usize,
    count: usize,
    words: &[u16],
    cells: &mut [RelationSet],
) -> Result<u32, Emptied>
    requires { Ready v cells.old × HasAgreed v count words.now × (count ≤ most_kinds) × Selves v cells.old }
    ensures { WithKinds v count words.now (λ ks. after_rounds v (rules_again v ks) cells.old cells.new result) }
{
    let before = members(cells);
    let index = Index::new(count, words);
    let lines = KindLines {
        boards: v,
        count,
        words,
        index: &index,
    };
    let mut marks = marks_room();
    settle(&lines, cells, &mut marks)?;
    Ok(before - members(cells))
}
