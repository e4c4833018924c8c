// A cell narrowed from both sides, with the list of pairs that lost something: a set of boards for each board.
#![tactic(auto)]

ghost use Rattle.std.specs.Prelude.{◌≡◌, false, ◌<◌, ◌≤◌, length, replicate};
ghost use Rattle.rules.specs.Descriptions.{most_boards};
ghost use Rattle.passes.specs.Passes.{Ready};
ghost use Rattle.moves.specs.Moves.{Marks, Mutual, PairTaken, PairPut, Struck};

use answers::limits::MOST_BOARDS;
use bits::NumberSet;
use relations::RelationSet;

// A cell is empty, so nothing fits: work that tells of it was left there.
#[derive(Clone, Copy, Debug, PartialEq, Eq)]
pub struct Emptied;

// Room for a list, with nothing on it.
pub fn marks_room() -> [NumberSet; MOST_BOARDS]
    ensures { result ≡ replicate most_boards 0 }
{
    [NumberSet::EMPTY; MOST_BOARDS]
}

// Takes everything off the list.
pub fn clear(marks: &mut [NumberSet])
    ensures { marks.new ≡ replicate (length marks.old) 0 }
{
    marks.fill(NumberSet::EMPTY);
}

// Takes the first pair off the list: the first board that has one, and the least board that it is with.
pub fn take_pair(v: usize, marks: &mut [NumberSet]) -> Option<(usize, usize)>
    requires { (v ≤ most_boards) × Marks v marks.old }
    ensures { PairTaken v marks.old marks.new result }
{
    for p in 0..v {
        if let Some(q) = marks[p].pop() {
            return Some((p, q));
        }
    }
    None
}

// Writes a set to the cell of two boards, and its converse to the cell of the same two seen from the other side. The pair is put on the list. Tells whether the
// cell is empty then.
pub fn put_pair(
    v: usize,
    p: usize,
    q: usize,
    is: RelationSet,
    cells: &mut [RelationSet],
    marks: &mut [NumberSet],
) -> Result<(), Emptied>
    requires { Ready v cells.old × Marks v marks.old × (p < v) × (q < v) }
    ensures { PairPut false v p q is cells.old marks.old cells.new marks.new result }
{
    let k = v * p + q;
    let l = v * q + p;
    cells[k] = is;
    cells[l] = is.converse();
    marks[p].insert(q);
    if is.is_empty() {
        return Err(Emptied);
    }
    Ok(())
}

// Narrows the cell of two boards to what the bound has too, and the cell of the same two seen from the other side alike. If that strikes anything, the pair
// is put on the list. Tells whether the cell is empty then.
pub fn strike(
    v: usize,
    p: usize,
    q: usize,
    bound: RelationSet,
    cells: &mut [RelationSet],
    marks: &mut [NumberSet],
) -> Result<(), Emptied>
    requires { Mutual v cells.old × Marks v marks.old × (p < v) × (q < v) }
    ensures { Struck v p q bound cells.old marks.old cells.new marks.new result }
{
    let was = tables::cell(v, p, q, cells);
    let is = was & bound;
    if is == was {
        return Ok(());
    }
    put_pair(v, p, q, is, cells, marks)
}
