// Rules 2 and 3, which look at boards alone: each two boards from both sides, and each three boards by way of two of them.
#![tactic(auto)]

ghost use Rattle.std.specs.Prelude.{◌<◌};
ghost use Rattle.passes.specs.Passes.{Ready};
ghost use Rattle.moves.specs.Moves.{Marks, Mutual, Went};
ghost use Rattle.sweeps.specs.Sweeps.{Evenly, ThroughBoth, Selves, Level, Levels, RowOf, Leveled};

use bits::NumberSet;
use compositions::compose;
use moves::{Emptied, put_pair, strike};
use relations::RelationSet;
use tables::cell;

// Rule 3 by way of two boards, from both sides: p to any third board is what p to q and q to the third allow, and q to it what q to p and p to it do. Left at
// once when a cell is empty.
pub fn through(
    v: usize,
    p: usize,
    q: usize,
    cells: &mut [RelationSet],
    marks: &mut [NumberSet],
) -> Result<(), Emptied>
    requires { Mutual v cells.old × Marks v marks.old × (p < v) × (q < v) }
    ensures { Went (Evenly v) v (ThroughBoth v p q) cells.old marks.old cells.new marks.new result }
{
    let x = cell(v, p, q, cells);
    let y = cell(v, q, p, cells);
    for r in 0..v {
        let bound = compose(x, cell(v, q, r, cells));
        strike(v, p, r, bound, cells, marks)?;
        let other = compose(y, cell(v, p, r, cells));
        strike(v, q, r, other, cells, marks)?;
    }
    Ok(())
}

// Rule 2 of two boards: both cells become what both sides allow. The pair is put on the list, unless all is allowed. Tells whether nothing is.
#[tactic(auto, using(crate::proofs::Leveling::full_cells, crate::proofs::Leveling::full_list, crate::proofs::Leveling::full_told))]
fn level(
    v: usize,
    p: usize,
    q: usize,
    cells: &mut [RelationSet],
    marks: &mut [NumberSet],
) -> Result<(), Emptied>
    requires { Ready v cells.old × Marks v marks.old × (p < q) × (q < v) }
    ensures { Level v p q cells.old marks.old cells.new marks.new result }
{
    let bound = cell(v, q, p, cells).converse();
    let is = cell(v, p, q, cells) & bound;
    if is == RelationSet::FULL {
        return Ok(());
    }
    put_pair(v, p, q, is, cells, marks)
}

// Rule 2 of one board and each that comes after it.
fn level_row(
    v: usize,
    p: usize,
    cells: &mut [RelationSet],
    marks: &mut [NumberSet],
) -> Result<(), Emptied>
    requires { Ready v cells.old × Marks v marks.old × (p < v) }
    ensures { Levels v (RowOf p) cells.old marks.old cells.new marks.new result }
{
    for q in p + 1..v {
        level(v, p, q, cells, marks)?;
    }
    Ok(())
}

// Rule 2 of every two boards, and the first list: every pair of which something is known is on it. Tells whether a cell is empty.
#[tactic(auto, using(crate::proofs::Leveling::sides_lost, crate::proofs::Leveling::diagonal_lost))]
pub fn level_all(
    v: usize,
    cells: &mut [RelationSet],
    marks: &mut [NumberSet],
) -> Result<(), Emptied>
    requires { Ready v cells.old × Marks v marks.old × Selves v cells.old }
    ensures { Leveled v cells.old cells.new marks.new result }
{
    for p in 0..v {
        if cell(v, p, p, cells).is_empty() {
            return Err(Emptied);
        }
        level_row(v, p, cells, marks)?;
    }
    Ok(())
}
