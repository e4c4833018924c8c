// The choices that stand: for each pair of boards the set of relations that have not failed there. The first of them in the order is the choice.
ghost use Rattle.std.specs.Prelude.{◌≡◌, ◌<◌, ◌≤◌, length};
ghost use Rattle.rules.specs.Descriptions.{most_boards};
ghost use Rattle.rules.specs.Search.{Order, places};
ghost use Rattle.passes.specs.Passes.{Ready};
ghost use Rattle.moves.specs.Moves.{Mutual};
ghost use Rattle.choosing.specs.Pairs.{IsPair};
ghost use Rattle.choosing.specs.Choices.{PairSets, NextOpen, LastOpen, Standing, Restored};

use crate::pairs::Pair;
use bits::NumberSet;
use relations::{Relation, RelationSet};

// Finds the first pair, from a pair on, whose cell has several relations. The set of each pair on the way becomes what its cell holds.
pub(crate) fn next_open(
    v: usize,
    from: Pair,
    cells: &[RelationSet],
    choices: &mut [RelationSet],
) -> Option<Pair>
    requires { Ready v cells.now × IsPair v from × PairSets v choices.old }
    ensures { NextOpen v cells.now choices.old from.index choices.new result }
{
    let mut at = from;
    // Stays: no `for`, since an iterator over pairs, which `last_open` goes the other way, would be more text than these steps.
    while at.q < v {
        let set = tables::cell(v, at.p, at.q, cells);
        choices[at.index] = set;
        let several = 1 < set.len();
        if several {
            return Some(at);
        }
        at = at.after(v);
    }
    None
}

// Finds the last pair, up to a pair whose choice has failed, that has a relation left besides its choice, and drops the choice there.
pub(crate) fn last_open(
    v: usize,
    order: &[Relation],
    from: Pair,
    choices: &mut [RelationSet],
) -> Option<Pair>
    requires { (v ≤ most_boards) × Order order.now × IsPair v from × (from.q < v) × PairSets v choices.old }
    ensures { LastOpen v order.now choices.old from.index choices.new result }
{
    let mut at = from;
    loop {
        let left = orders::unpicked(order, choices[at.index]);
        choices[at.index] = left;
        if !left.is_empty() {
            return Some(at);
        }
        if at.index == 0 {
            return None;
        }
        at = at.before(v);
    }
}

// Makes the cells those of the first table, narrowed by the choices at its first `count` pairs, each of which is put on the list if it narrows anything.
pub(crate) fn rebuild(
    v: usize,
    order: &[Relation],
    first: &[RelationSet],
    choices: &[RelationSet],
    count: usize,
    cells: &mut [RelationSet],
    marks: &mut [NumberSet],
)
    requires { Mutual v first.now × (0 < v) × Order order.now × PairSets v choices.now × (count ≤ length (places v)) × (length cells.old ≡ length first.now) × (length marks.old ≡ most_boards) × Standing v order.now choices.now first.now count }
    ensures { Restored v order.now choices.now first.now count cells.new marks.new }
{
    cells.copy_from_slice(first);
    moves::clear(marks);
    let mut at = Pair::first(v);
    // Stays: no `for`, as in `next_open`.
    while at.index < count {
        let bound = orders::pick(order, choices[at.index]);
        // Some table stands by these choices, so this empties no cell.
        let _ = moves::strike(v, at.p, at.q, bound, cells, marks);
        at = at.after(v);
    }
}
