// Closing and opening under a description that was read: first the rules that need no second look (1, 4 and 5), then rounds of the others.
#![tactic(auto)]

ghost use Rattle.std.specs.Prelude.{◌≡◌, length, Ok};
ghost use Rattle.rules.specs.Calls.{opening, close};
ghost use Rattle.answers.specs.Answers.{told, outcome};
ghost use Rattle.sheet.specs.Found.{description_found};
ghost use Rattle.closing.specs.Closes.{Admitted, Measured, OnceUnder, ClosesUnder, ClosedInto, Steady, Under, Told, Listing, closes_listed};

use answers::Answer;
use answers::limits::{HEADER_WORDS, MOST_CELLS};
use answers::refusals::{Fault, Refused};
use bits::NumberSet;
use by_board::{Index, KindLines};
use headers::Header;
use moves::Emptied;
use relations::RelationSet;
use tables::{read_cells, room, write_cells};

// Follows rules 1, 4 and 5, which need no second look, and says how many relations they struck.
fn strike_once(h: Header, words: &[u16], cells: &mut [RelationSet]) -> u32
    requires { Admitted h words.now cells.old }
    ensures { OnceUnder words.now cells.old cells.new result }
{
    let v = h.boards;
    let kinds_at = h.kinds.at;
    let by_boards = once::rules1(v, cells);
    let by_lines = once::rules4(v, h.lines.count, &words[HEADER_WORDS..kinds_at], cells);
    let by_kinds = ways::rules5(v, h.kinds.count, &words[kinds_at..], cells);
    by_boards + by_lines + by_kinds
}

// Closes cells in which rules 1, 4 and 5 strike nothing. After an `Err` the cells are of no use.
fn close_again(h: Header, words: &[u16], cells: &mut [RelationSet]) -> Result<u32, Emptied>
    requires { Admitted h words.now cells.old × Steady words.now cells.old }
    ensures { ClosesUnder words.now cells.old cells.new result }
{
    let kinds_at = h.kinds.at;
    rounds::rounds(h.boards, h.kinds.count, &words[kinds_at..], cells)
}

// Tells the kind lines of a description by board, once for all closings by a list.
pub fn tell_kinds(h: Header, words: &[u16]) -> Index
    requires { Ok h ≡ description_found words.now }
    ensures { Told h words.now result }
{
    let kinds_at = h.kinds.at;
    Index::new(h.kinds.count, &words[kinds_at..])
}

// Closes cells that lie inside a closed table by the list of what was narrowed in it. If no cell is empty, nothing is on the list then; else cells and list
// are of no use.
pub fn close_listed(
    h: Header,
    words: &[u16],
    found: &Index,
    cells: &mut [RelationSet],
    marks: &mut [NumberSet],
) -> Result<(), Emptied>
    requires { Told h words.now found.now × Under words.now (λ s. Listing s marks.old cells.old) }
    ensures { Under words.now (λ s. closes_listed s cells.old cells.new marks.new result) }
{
    let kinds_at = h.kinds.at;
    let lines = KindLines {
        boards: h.boards,
        count: h.kinds.count,
        words: &words[kinds_at..],
        index: found,
    };
    rounds::drain(&lines, cells, marks)
}

// Closes cells under the description that the words mean; h is its header. After an `Err` the cells are of no use.
pub fn close_cells(h: Header, words: &[u16], cells: &mut [RelationSet]) -> Result<u32, Emptied>
    requires { Admitted h words.now cells.old }
    ensures { ClosesUnder words.now cells.old cells.new result }
{
    let first = strike_once(h, words, cells);
    let more = close_again(h, words, cells)?;
    Ok(first + more)
}

// Closes working cells, and then copies them to the table; or refuses with 7 where their largest closed table has an empty cell, and leaves the table as it
// came.
fn close_into(h: Header, words: &[u16], cells: &mut [RelationSet], table: &mut [u8]) -> Answer
    requires { Admitted h words.now cells.old × (length table.old ≡ length cells.old) }
    ensures { ClosedInto words.now cells.old table.old table.new (told result) }
{
    let Ok(struck) = close_cells(h, words, cells) else {
        return Err(Refused {
            fault: Fault::Contradictory,
            count: 0,
        });
    };
    write_cells(cells, table);
    Ok(struck)
}

// Closes the table by a working copy of it, so that a refusal leaves the table as it came.
fn close_by_copy(h: Header, words: &[u16], table: &mut [u8], cells: &mut [RelationSet]) -> Answer
    requires { Admitted h words.now table.old × (length cells.old ≡ length table.old) }
    ensures { outcome (told result) table.new ≡ close words.now table.old }
{
    read_cells(table, cells);
    close_into(h, words, cells, table)
}

// Replaces a table that was admitted by the largest closed table inside it, and answers how many relations that struck. Refuses with 7 where the
// largest closed table has an empty cell, and then leaves the table as it came.
pub fn close_table(h: Header, words: &[u16], table: &mut [u8]) -> Answer
    requires { Admitted h words.now table.old }
    ensures { outcome (told result) table.new ≡ close words.now table.old }
{
    let n = table.len();
    let mut cells = room::<MOST_CELLS>(RelationSet::EMPTY);
    close_by_copy(h, words, table, &mut cells[..n])
}

// Replaces a table, whatever it holds, by the largest closed table inside the full one, and answers how many relations that struck from the full one. Refuses
// with 7 where the largest closed table has an empty cell, and then leaves the table as it came.
pub fn open_table(h: Header, words: &[u16], table: &mut [u8]) -> Answer
    requires { Measured h words.now table.old }
    ensures { outcome (told result) table.new ≡ opening words.now table.old }
{
    let n = table.len();
    let mut full = room::<MOST_CELLS>(RelationSet::FULL);
    close_into(h, words, &mut full[..n], table)
}
