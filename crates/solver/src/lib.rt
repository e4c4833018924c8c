// The solver's face: the calls, for whatever they are lent. The calls for C, the programs and later crates stand on these and see nothing below.
#![tactic(auto)]

ghost use Rattle.std.specs.Prelude.{◌≡◌};
ghost use Rattle.rules.specs.Search.{plain_order};
ghost use Rattle.rules.specs.Calls.{reading, opening, close, searching, check};
ghost use Rattle.answers.specs.Answers.{told, outcome};

use answers::Answer;
use relations::{RELATIONS, Relation};
use tables::Asked;

// Reads a description: 0 if it is good, or its first refusal, 1 to 5 or 11, with its place: the index of the first word that breaks the rule or, where words are
// missing, the place just after those that there are.
pub fn read(words: &[u16]) -> Answer
    ensures { outcome (told result) tt ≡ reading words.now }
{
    sheet::description(words).map_err(|r| r.refused())?;
    Ok(0)
}

// Replaces the lent table, whatever it holds, by the largest closed table inside the full one, and answers how many relations that struck from the full one.
// Refuses a description with 1 to 5 and 11, and the place, then a wrong number of cells with 6, then with 7 where the largest closed table has an empty cell;
// and then leaves the table as it came.
pub fn open(words: &[u16], table: &mut [u8]) -> Answer
    ensures { outcome (told result) table.new ≡ opening words.now table.old }
{
    let h = admitting::admit(words, table, Asked::Cells).map_err(|r| r.refused())?;
    closing::open_table(h, words, table)
}

// Replaces the lent table by the largest closed table inside it, and answers how many relations that struck. Refuses a description with 1 to 5 and 11, and the
// place, then a table that is none of as many boards with 6, then with 7 where the largest closed table has an empty cell; and then leaves the table as it came.
pub fn close(words: &[u16], table: &mut [u8]) -> Answer
    ensures { outcome (told result) table.new ≡ close words.now table.old }
{
    let h = admitting::admit(words, table, Asked::Sets).map_err(|r| r.refused())?;
    closing::close_table(h, words, table)
}

// The order in which a search tries the relations: E, A, B, S.
fn plain_order() -> [Relation; RELATIONS]
    ensures { result ≡ plain_order }
{
    [
        Relation::SAME,
        Relation::ABOVE,
        Relation::BELOW,
        Relation::SIDE,
    ]
}

// Replaces the lent table by the first arrangement inside it, in the order E, A, B, S, and answers how many tries that took. Refuses a description
// with 1 to 5 and 11, and the place, then a table that is none of as many boards with 6, then with 8 and the tries made where there is no arrangement inside
// it, or with 9 and the budget where more tries are needed; and then leaves the table as it came.
pub fn search(words: &[u16], table: &mut [u8], budget: u32) -> Answer
    ensures { outcome (told result) table.new ≡ searching plain_order words.now table.old budget }
{
    let h = admitting::admit(words, table, Asked::Sets).map_err(|r| r.refused())?;
    let order = plain_order();
    search::search_table(h, words, &order, budget, table)
}

// Says whether the table is an arrangement, whoever proposed it: 0 if it is, 10 if not. Refuses a description with 1 to 5 and 11, and the place, then a table
// that is none of as many boards with 6. The table is only read.
pub fn check(words: &[u16], table: &[u8]) -> Answer
    ensures { outcome (told result) table.now ≡ check words.now table.now }
{
    let h = admitting::admit(words, table, Asked::Sets).map_err(|r| r.refused())?;
    checking::check_table(h, words, table)
}
