// Tables of sets, a byte for each pair of boards.
#![tactic(auto)]

ghost use Rattle.std.specs.Prelude.{◌≡◌, ℕ, ◌≤◌, ◌<◌, length, replicate, slice_index, nat_lt};
ghost use Rattle.rules.specs.Relations.{each_of, set_limit};
ghost use Rattle.rules.specs.Descriptions.{most_boards, most_cells};
ghost use Rattle.rules.specs.Tables.{cell, total};
ghost use Rattle.passes.specs.Passes.{Ready, Narrowed};
ghost use Rattle.tables.specs.Asks.{asks};

use relations::{RelationSet, SETS};

// Room for so many sets, each of which is this one.
pub fn room<const N: usize>(fill: RelationSet) -> [RelationSet; N]
    ensures { result ≡ replicate N fill }
{
    [fill; N]
}

// Reads the cells of a lent table, each of which is a set, as sets.
pub fn read_cells(table: &[u8], cells: &mut [RelationSet])
    requires { ((k : ℕ) → slice_index table.now k < set_limit) × (length cells.old ≡ length table.now) }
    ensures { cells.new ≡ table.now }
{
    for (i, &byte) in table.iter().enumerate() {
        cells[i] = RelationSet::new(byte);
    }
}

// Writes sets to the cells of a lent table.
pub fn write_cells(cells: &[RelationSet], table: &mut [u8])
    requires { length table.old ≡ length cells.now }
    ensures { table.new ≡ cells.now }
{
    for (i, &cell) in cells.iter().enumerate() {
        table[i] = u8::from(cell);
    }
}

// Tells whether each cell is a set. The loop has no way out, so that a processor can take many cells at once.
fn sets_only(table: &[u8]) -> bool
    ensures { result ≡ each_of (λ x. nat_lt x set_limit) table.now }
{
    let mut sets = true;
    for &byte in table {
        sets &= usize::from(byte) < SETS;
    }
    sets
}

// What a call asks for in the table that it is lent: a cell for each two boards, or besides that each cell is a set.
#[derive(Clone, Copy, Debug, PartialEq, Eq)]
pub enum Asked {
    Cells,
    Sets,
}

// Tells whether the table of v boards has what is asked for.
pub fn as_asked(v: usize, table: &[u8], asked: Asked) -> bool
    requires { v ≤ most_boards }
    ensures { result ≡ asks asked v table.now }
{
    if table.len() != v * v {
        return false;
    }
    match asked {
        Asked::Cells => true,
        Asked::Sets => sets_only(table),
    }
}

// The cell of two boards.
pub fn cell(v: usize, p: usize, q: usize, cells: &[RelationSet]) -> RelationSet
    requires { Ready v cells.now × (p < v) × (q < v) }
    ensures { result ≡ cell v cells.now p q }
{
    cells[v * p + q]
}

// Narrows one cell to what the bound has too, and says how many relations that struck.
pub fn narrow(cells: &mut [RelationSet], k: usize, bound: RelationSet) -> u32
    requires { k < length cells.old }
    ensures { Narrowed cells.old k bound cells.new result }
{
    let was = cells[k];
    let is = was & bound;
    if is == was {
        return 0;
    }
    cells[k] = is;
    was.len() - is.len()
}

// How many relations the cells have, all together.
pub fn members(cells: &[RelationSet]) -> u32
    requires { length cells.now ≤ most_cells }
    ensures { result ≡ total cells.now }
{
    let mut count = 0;
    for cell in cells {
        count += cell.len();
    }
    count
}
