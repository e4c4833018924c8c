// Composition of sets of relations, by a table with an entry for each pair of sets.
#![tactic(auto)]

mod entries;

ghost use Rattle.std.specs.Prelude.{◌≡◌, ◌<◌, map};
ghost use Rattle.rules.specs.Relations.{relations, composed, compose};
ghost use Rattle.compositions.specs.Composing.{Composes};

use relations::{RELATIONS, RelationSet, SETS};

// The sixteen compositions of single relations: what p to r may be, given p to q (row) and q to r (column).
const SINGLES: [[u8; RELATIONS]; RELATIONS] = [
    [1, 2, 4, 8], // E
    [2, 2, 7, 10], // A
    [4, 15, 4, 8], // B
    [8, 8, 12, 15], // S
];

// Gives what two single relations compose to, by their numbers.
fn composed(r: usize, s: usize) -> u8
    requires { (r < relations) × (s < relations) }
    ensures { result ≡ composed r s }
{
    SINGLES[r][s]
}

// The compositions of all pairs of sets, laid out once for all. A row is found by its address, so a loop over the sets after the same one finds it once.
static COMPOSITIONS: [&[u8; SETS]; SETS] = entries::ENTRIES;

// Gives what two sets compose to, by a table with a row for each set.
fn composed_by(rows: &[&[u8; SETS]], x: RelationSet, y: RelationSet) -> RelationSet
    requires { Composes (map (λ row. row.now) rows.now) }
    ensures { result ≡ compose x y }
{
    let row = rows[usize::from(u8::from(x))];
    RelationSet::new(row[usize::from(u8::from(y))])
}

// Gives what two sets compose to, by the table of compositions.
pub fn compose(x: RelationSet, y: RelationSet) -> RelationSet
    ensures { result ≡ compose x y }
{
    composed_by(&COMPOSITIONS, x, y)
}
