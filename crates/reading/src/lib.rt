// The text reader: from a typed sheet to the words of its description.
#![tactic(auto)]

ghost use Rattle.std.specs.Prelude.{◌≡◌, ◌+◌, ◌≤◌, ◌<◌, min, length};
ghost use Rattle.std.proofs.lemmas.List.Edits.{sets};
ghost use Rattle.rules.specs.Descriptions.{most_words, read};
ghost use Rattle.rules.specs.Calls.{given};
ghost use Rattle.answers.specs.Answers.{told, outcome};
ghost use Rattle.typed.specs.Calls.{most_count, in_room, from_text};
ghost use Rattle.reading.specs.Joined.{header, Joins, Joined};

use answers::Answer;
use answers::limits::{HEADER_WORDS, MOST_BOARDS, MOST_KINDS, MOST_LINES};
use answers::refusals::{Fault, Refused};
use answers::rooms::words_room;
use taken::put_words;
use text_lines::{Gathered, gather, kinds_room};

// A line's number as a count: the largest one where it is larger.
fn line_count(line: usize) -> u32
    ensures { result ≡ min line most_count }
{
    u32::try_from(line).unwrap_or(u32::MAX)
}

// The header of a description with so many words.
fn header(lines: Gathered, total: usize) -> [u16; HEADER_WORDS]
    requires { (total < 65536) × (lines.relations.end < 65536) × (lines.relations.lines < 65536) × (lines.kinds.lines < 65536) }
    ensures { result ≡ header lines total }
{
    [
        lines.boards,
        lines.relations.lines as u16,
        lines.kinds.lines as u16,
        HEADER_WORDS as u16,
        lines.relations.end as u16,
        total as u16,
    ]
}

// Joins what was gathered: the header goes before the words of the relation lines, those of the kind lines after them. Answers how many words there are.
fn join(words: &mut [u16], kinds: &[u16], lines: Gathered) -> usize
    requires { Joins words.old kinds.now lines }
    ensures joined { Joined words.old kinds.now lines words.new result }
    ensures few { result ≤ most_words }
{
    let next = lines.relations.end;
    let last = lines.kinds.end;
    let total = next + last;
    put_words(words, 0, &header(lines, total));
    put_words(words, next, &kinds[..last]);
    total
}

// Reads the words that were made, and hands them over: refuses them with 1 to 5 and 11, and the place, then a room that is too small with 19.
#[tactic(auto, unfolding(rules::specs::Calls::reading))]
fn hand_over(words: &[u16], room: &mut [u16]) -> Answer
    requires { length words.now ≤ most_words }
    ensures { outcome (told result) room.new ≡ given (read words.now) room.old (λ s. in_room words.now room.old) }
{
    solver::read(words)?;
    if room.len() < words.len() {
        return Err(Refused {
            fault: Fault::NoRoom,
            count: 0,
        });
    }
    put_words(room, 0, words);
    Ok(words.len() as u32)
}

// Reads a typed sheet: the words of its description go to the front of the lent room, and the answer has how many they are. Refuses the first
// malformed line with 20 and its number, then the words made with 1 to 5 and 11, and the place in these, then a room that is too small with 19; and then leaves
// the room as it came.
#[tactic(auto, using(crate::proofs::Making::stopped_at, crate::proofs::Making::boards_out, crate::proofs::Making::lines_over, crate::proofs::Making::kinds_over))]
pub fn from_text(text: &[u8], room: &mut [u16]) -> Answer
    ensures { outcome (told result) room.new ≡ from_text text.now room.old }
{
    let mut words = words_room();
    let mut kinds = kinds_room();
    let lines = match gather(text, &mut words, &mut kinds) {
        Ok(lines) => lines,
        Err(line) => {
            return Err(Refused {
                fault: Fault::NoSheet,
                count: line_count(line),
            });
        }
    };
    if !(1..=MOST_BOARDS).contains(&usize::from(lines.boards)) {
        return Err(Refused {
            fault: Fault::OutOfRange,
            count: 0,
        });
    }
    if MOST_LINES < lines.relations.lines {
        return Err(Refused {
            fault: Fault::OutOfRange,
            count: 1,
        });
    }
    if MOST_KINDS < lines.kinds.lines {
        return Err(Refused {
            fault: Fault::OutOfRange,
            count: 2,
        });
    }
    let total = join(&mut words, &kinds, lines);
    hand_over(&words[..total], room)
}
