// The calls for C, as `talung_c` exports them: numbers and lent slices, with the answer packed in one number.
#![tactic(auto, using(crate::proofs::Packing::packs))]

ghost use Rattle.std.specs.Prelude.{◌≡◌};
ghost use Rattle.rules.specs.Search.{plain_order};
ghost use Rattle.rules.specs.Calls.{reading, opening, close, searching, check};
ghost use Rattle.typed.specs.Calls.{from_text, to_text};
ghost use Rattle.answers.specs.Answers.{told};
ghost use Rattle.talung.specs.Packed.{packed, Packed};

use answers::Answer;

// What one of the count adds to a packed answer.
pub const COUNT_UNIT: u64 = 4294967296;

// The answer's number in the low 32 bits, 0 for a success, and its count in the high 32.
fn pack(answer: Answer) -> u64
    ensures { result ≡ packed (told answer).number (told answer).count }
{
    let (number, count) = match answer {
        Ok(count) => (0, count),
        Err(refused) => (u8::from(refused.fault), refused.count),
    };
    u64::from(number) + COUNT_UNIT * u64::from(count)
}

// Reads a description, as `solver::read` does.
pub fn talung_read(words: &[u16]) -> u64
    ensures { Packed result tt (reading words.now) }
{
    pack(solver::read(words))
}

// Opens the lent table, whatever it holds, under the description, as `solver::open` does.
pub fn talung_open(words: &[u16], table: &mut [u8]) -> u64
    ensures { Packed result table.new (opening words.now table.old) }
{
    pack(solver::open(words, table))
}

// Closes the lent table under the description, as `solver::close` does.
pub fn talung_close(words: &[u16], table: &mut [u8]) -> u64
    ensures { Packed result table.new (close words.now table.old) }
{
    pack(solver::close(words, table))
}

// Searches the lent table for an arrangement of the description within a budget of tries, as `solver::search` does.
pub fn talung_search(words: &[u16], table: &mut [u8], budget: u32) -> u64
    ensures { Packed result table.new (searching plain_order words.now table.old budget) }
{
    pack(solver::search(words, table, budget))
}

// Says whether the table is an arrangement of the description, as `solver::check` does.
pub fn talung_check(words: &[u16], table: &[u8]) -> u64
    ensures { Packed result table.now (check words.now table.now) }
{
    pack(solver::check(words, table))
}

// Reads a typed sheet: the words of its description go to the front of the lent room, as `reading::from_text` has them.
pub fn talung_from_text(text: &[u8], room: &mut [u16]) -> u64
    ensures { Packed result room.new (from_text text.now room.old) }
{
    pack(reading::from_text(text, room))
}

// Writes a description as it is typed: the text goes to the front of the lent room, as `writing::to_text` has it.
pub fn talung_to_text(words: &[u16], room: &mut [u8]) -> u64
    ensures { Packed result room.new (to_text words.now room.old) }
{
    pack(writing::to_text(words, room))
}
