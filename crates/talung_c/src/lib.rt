// The calls of `talung`, exported to C: each is called there under its own name, and promises what it promises there.
#![tactic(auto)]

ghost use Rattle.rules.specs.Search.{plain_order};
ghost use Rattle.rules.specs.Calls.{reading, opening, close, searching, check};
ghost use Rattle.typed.specs.Calls.{from_text, to_text};
ghost use Rattle.talung.specs.Packed.{Packed};

// Reads a description, as `talung::talung_read` does.
#[unsafe(no_mangle)]
pub extern "C" fn talung_read(words: &[u16]) -> u64
    ensures { Packed result tt (reading words.now) }
{
    talung::talung_read(words)
}

// Opens the lent table, whatever it holds, under the description, as `talung::talung_open` does.
#[unsafe(no_mangle)]
pub extern "C" fn talung_open(words: &[u16], table: &mut [u8]) -> u64
    ensures { Packed result table.new (opening words.now table.old) }
{
    talung::talung_open(words, table)
}

// Closes the lent table under the description, as `talung::talung_close` does.
#[unsafe(no_mangle)]
pub extern "C" fn talung_close(words: &[u16], table: &mut [u8]) -> u64
    ensures { Packed result table.new (close words.now table.old) }
{
    talung::talung_close(words, table)
}

// Searches the lent table for an arrangement of the description within a budget of tries, as `talung::talung_search` does.
#[unsafe(no_mangle)]
pub extern "C" fn talung_search(words: &[u16], table: &mut [u8], budget: u32) -> u64
    ensures { Packed result table.new (searching plain_order words.now table.old budget) }
{
    talung::talung_search(words, table, budget)
}

// Says whether the table is an arrangement of the description, as `talung::talung_check` does.
#[unsafe(no_mangle)]
pub extern "C" fn talung_check(words: &[u16], table: &[u8]) -> u64
    ensures { Packed result table.now (check words.now table.now) }
{
    talung::talung_check(words, table)
}

// Reads a typed sheet: the words of its description go to the front of the lent room, as `talung::talung_from_text` has them.
#[unsafe(no_mangle)]
pub extern "C" fn talung_from_text(text: &[u8], room: &mut [u16]) -> u64
    ensures { Packed result room.new (from_text text.now room.old) }
{
    talung::talung_from_text(text, room)
}

// Writes a description as it is typed: the text goes to the front of the lent room, as `talung::talung_to_text` has it.
#[unsafe(no_mangle)]
pub extern "C" fn talung_to_text(words: &[u16], room: &mut [u8]) -> u64
    ensures { Packed result room.new (to_text words.now room.old) }
{
    talung::talung_to_text(words, room)
}
