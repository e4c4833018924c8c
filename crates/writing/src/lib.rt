// The text writer: from the words of a description to its typed sheet.
#![tactic(auto)]

ghost use Rattle.std.specs.Prelude.{◌≡◌};
ghost use Rattle.answers.specs.Answers.{told, outcome};
ghost use Rattle.typed.specs.Writing.{text_of};
ghost use Rattle.typed.specs.Calls.{in_room, to_text};
ghost use Rattle.sheet_texts.specs.Sheets.{Good};

use answers::Answer;
use answers::refusals::{Fault, Refused};
use sheet_texts::{MOST_TEXT, put_sheet, text_room};

// Writes a good description as it is typed, in room that may be too small: the text is made in room of its own, and copied where it fits.
fn write_apart(words: &[u16], room: &mut [u8]) -> Answer
    requires { Good words.now }
    ensures { outcome (told result) room.new ≡ in_room (text_of words.now) room.old }
{
    let mut text = text_room();
    let used = put_sheet(words, &mut text);
    if room.len() < used {
        return Err(Refused {
            fault: Fault::NoRoom,
            count: 0,
        });
    }
    room[..used].copy_from_slice(&text[..used]);
    Ok(used as u32)
}

// Writes a description as it is typed: the text goes to the front of the lent room, and the answer has how many bytes it has. Refuses a description
// with 1 to 5 and 11, and the place, then a room that is too small with 19; and then leaves the room as it came.
pub fn to_text(words: &[u16], room: &mut [u8]) -> Answer
    ensures { outcome (told result) room.new ≡ to_text words.now room.old }
{
    solver::read(words)?;
    if room.len() < MOST_TEXT {
        return write_apart(words, room);
    }
    Ok(put_sheet(words, room) as u32)
}
