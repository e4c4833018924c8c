// The check of a table that somebody proposes: is it an arrangement of the description?
#![tactic(auto)]

ghost use Rattle.std.specs.Prelude.{◌≡◌, length, nat_eq};
ghost use Rattle.rules.specs.Relations.{each_of, size};
ghost use Rattle.rules.specs.Calls.{check};
ghost use Rattle.answers.specs.Answers.{told, outcome};
ghost use Rattle.closing.specs.Closes.{Admitted};

use answers::Answer;
use answers::limits::MOST_CELLS;
use answers::refusals::{Fault, Refused};
use closing::close_cells;
use headers::Header;
use relations::RelationSet;
use tables::{read_cells, room};

// Tells whether each cell has one relation.
fn decided(cells: &[RelationSet]) -> bool
    ensures { result ≡ each_of (λ x. nat_eq (size x) 1) cells.now }
{
    for cell in cells {
        if cell.len() != 1 {
            return false;
        }
    }
    true
}

// Checks a table by a copy of it, in room for its cells: each is decided, and closing the copy empties none. Closing then strikes nothing, since a strike empties a
// decided cell.
fn check_by_copy(h: Header, words: &[u16], table: &[u8], cells: &mut [RelationSet]) -> Answer
    requires { Admitted h words.now table.now × (length cells.old ≡ length table.now) }
    ensures { outcome (told result) table.now ≡ check words.now table.now }
{
    read_cells(table, cells);
    let refused = Refused {
        fault: Fault::NoArrangement,
        count: 0,
    };
    if !decided(cells) {
        return Err(refused);
    }
    let Ok(_) = close_cells(h, words, cells) else {
        return Err(refused);
    };
    Ok(0)
}

// Says whether a table that was admitted is an arrangement, whoever proposed it: 0 if it is, 10 if not. The table is only read.
pub fn check_table(h: Header, words: &[u16], table: &[u8]) -> Answer
    requires { Admitted h words.now table.now }
    ensures { outcome (told result) table.now ≡ check words.now table.now }
{
    let n = table.len();
    let mut cells = room::<MOST_CELLS>(RelationSet::EMPTY);
    check_by_copy(h, words, table, &mut cells[..n])
}
