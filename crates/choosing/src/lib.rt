// Tries within a budget. No table is kept for each choice, but one set for each pair of boards: after a failed try the cells are closed again from the
// first table under the choices that stand.
#![tactic(auto)]

mod choices;
mod pairs;

ghost use Rattle.rules.specs.Closing.{closing};
ghost use Rattle.rules.specs.Search.{choose, places};
ghost use Rattle.closing.specs.Closes.{Under};
ghost use Rattle.choosing.specs.Tries.{Failed, retreats, relists, Trying, Tried, Choosing, ends};

use crate::choices::{last_open, next_open, rebuild};
use crate::pairs::Pair;
use bits::NumberSet;
use by_board::Index;
use headers::Header;
use relations::{Relation, RelationSet};

// What a search does next: it tries at a pair, or it has found an arrangement, or every choice has failed.
#[derive(Clone, Copy, Debug, PartialEq, Eq)]
enum Next {
    Try(Pair),
    Found,
    Spent,
}

// How a search ended: with an arrangement or with none, after so many tries, or out of budget.
#[derive(Clone, Copy, Debug, PartialEq, Eq)]
pub enum Ended {
    Arranged(u32),
    Nowhere(u32),
    RanOut,
}

// Goes back from a pair where a try has failed, and makes the cells ready for the next try, if there is one.
fn retreat(
    v: usize,
    order: &[Relation],
    first: &[RelationSet],
    at: Pair,
    choices: &mut [RelationSet],
    cells: &mut [RelationSet],
    marks: &mut [NumberSet],
) -> Option<Pair>
    requires { Failed v order.now first.now at choices.old cells.old marks.old }
    ensures { retreats v order.now first.now at choices.old choices.new cells.new marks.new result }
{
    let to = last_open(v, order, at, choices)?;
    let count = to.index;
    rebuild(v, order, first, choices, count, cells, marks);
    Some(to)
}

// Makes one try: narrows the cell of the pair to its choice, closes by the list, and goes on or back.
// Stays: in one struct, each contract and loop would have to say of the lent slices that they stay the same ones.
fn attempt(
    h: Header,
    words: &[u16],
    found: &Index,
    order: &[Relation],
    first: &[RelationSet],
    at: Pair,
    choices: &mut [RelationSet],
    cells: &mut [RelationSet],
    marks: &mut [NumberSet],
) -> Next
    requires { Trying h words.now found.now order.now first.now at choices.old cells.old marks.old }
    ensures { Under words.now (λ s. Tried s order.now first.now at choices.old choices.new cells.new result × relists s cells.new marks.new result) }
{
    let v = h.boards;
    let bound = orders::pick(order, choices[at.index]);
    // The choice is in the cell, so this empties none.
    let _ = moves::strike(v, at.p, at.q, bound, cells, marks);
    if closing::close_listed(h, words, found, cells, marks).is_ok() {
        return next_open(v, at.after(v), cells, choices).map_or(Next::Found, Next::Try);
    }
    retreat(v, order, first, at, choices, cells, marks).map_or(Next::Spent, Next::Try)
}

// Makes tries until every cell is single, every choice has failed or the budget is spent. The cells are those of the first table to begin with. `found` tells
// the kind lines by board.
// Stays: as at `attempt`.
pub fn choose(
    h: Header,
    words: &[u16],
    found: &Index,
    order: &[Relation],
    budget: u32,
    first: &[RelationSet],
    choices: &mut [RelationSet],
    cells: &mut [RelationSet],
    marks: &mut [NumberSet],
) -> Ended
    requires { Choosing h words.now found.now order.now first.now choices.old cells.old marks.old }
    ensures { Under words.now (λ s. ends (choose (closing s) order.now (places s.boards) first.now) budget cells.new result) }
{
    let v = h.boards;
    let mut tries = 0;
    let mut next = next_open(v, Pair::first(v), cells, choices).map_or(Next::Found, Next::Try);
    loop {
        let at = match next {
            Next::Try(at) => at,
            Next::Found => return Ended::Arranged(tries),
            Next::Spent => return Ended::Nowhere(tries),
        };
        if tries == budget {
            return Ended::RanOut;
        }
        tries += 1;
        next = attempt(h, words, found, order, first, at, choices, cells, marks);
    }
}
