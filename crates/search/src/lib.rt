// The search for an arrangement inside a table that was admitted: the first closing, the tries, and the answer.
#![tactic(auto)]

ghost use Rattle.std.specs.Prelude.{◌≡◌, length};
ghost use Rattle.rules.specs.Search.{Order};
ghost use Rattle.rules.specs.Calls.{searching};
ghost use Rattle.answers.specs.Answers.{told, outcome};
ghost use Rattle.closing.specs.Closes.{Admitted};
ghost use Rattle.search.specs.Rooms.{concluded, Roomy};

use answers::Answer;
use answers::limits::{MOST_CELLS, MOST_PAIRS};
use answers::refusals::{Fault, Refused};
use bits::NumberSet;
use choosing::{Ended, choose};
use closing::{close_cells, tell_kinds};
use headers::Header;
use moves::marks_room;
use relations::{Relation, RelationSet};
use tables::{read_cells, room, write_cells};

// Turns the end of a search into its answer. On success the arrangement replaces the lent table.
fn conclude(ended: Ended, budget: u32, cells: &[RelationSet], table: &mut [u8]) -> Answer
    requires { length table.old ≡ length cells.now }
    ensures { outcome (told result) table.new ≡ concluded table.old budget cells.now ended }
{
    match ended {
        Ended::Arranged(tries) => {
            write_cells(cells, table);
            Ok(tries)
        }
        Ended::Nowhere(tries) => Err(Refused {
            fault: Fault::Nowhere,
            count: tries,
        }),
        Ended::RanOut => Err(Refused {
            fault: Fault::RanOut,
            count: budget,
        }),
    }
}

// Searches in room for the first closed table, for the choices, for the cells of the try at hand and for the list of pairs.
fn search_in_room(
    h: Header,
    words: &[u16],
    order: &[Relation],
    budget: u32,
    table: &mut [u8],
    first: &mut [RelationSet],
    choices: &mut [RelationSet],
    cells: &mut [RelationSet],
    marks: &mut [NumberSet],
) -> Answer
    requires { Roomy h words.now order.now table.old first.old choices.old cells.old marks.old }
    ensures { outcome (told result) table.new ≡ searching order.now words.now table.old budget }
{
    read_cells(table, first);
    let Ok(_) = close_cells(h, words, first) else {
        return conclude(Ended::Nowhere(0), budget, cells, table);
    };
    let found = tell_kinds(h, words);
    cells.copy_from_slice(first);
    let ended = choose(
        h, words, &found, order, budget, first, choices, cells, marks,
    );
    conclude(ended, budget, cells, table)
}

// Replaces a table that was admitted by the first arrangement inside it, in this order of relations, and answers how many tries that took. Refuses with
// 8 and the tries made where there is no arrangement inside it, or with 9 and the budget where more tries are needed; and then leaves the table as it
// came.
pub fn search_table(
    h: Header,
    words: &[u16],
    order: &[Relation],
    budget: u32,
    table: &mut [u8],
) -> Answer
    requires { Admitted h words.now table.old × Order order.now }
    ensures { outcome (told result) table.new ≡ searching order.now words.now table.old budget }
{
    let n = table.len();
    let mut first = room::<MOST_CELLS>(RelationSet::EMPTY);
    let mut choices = room::<MOST_PAIRS>(RelationSet::EMPTY);
    let mut cells = room::<MOST_CELLS>(RelationSet::EMPTY);
    let mut marks = marks_room();
    search_in_room(
        h,
        words,
        order,
        budget,
        table,
        &mut first[..n],
        &mut choices,
        &mut cells[..n],
        &mut marks,
    )
}
