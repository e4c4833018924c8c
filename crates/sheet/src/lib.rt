// Descriptions: a lent run of 16-bit words, header, relation lines and kind lines.
#![tactic(auto)]

mod sections;

ghost use Rattle.std.specs.Prelude.{◌≡◌};
ghost use Rattle.sheet.specs.Found.{description_found};

use crate::sections::{agreed_section, relation_section};
use answers::limits::HEADER_WORDS;
use answers::refusals::Refusal;
use headers::Header;

// Reads a whole description: its header, once every line has been read, or the first refusal.
pub fn description(words: &[u16]) -> Result<Header, Refusal>
    ensures { result ≡ description_found words.now }
{
    let h = headers::read_header(words)?;
    let kinds_at = h.kinds.at;
    let lines = &words[HEADER_WORDS..kinds_at];
    relation_section(h.boards, h.lines.count, lines).map_err(|r| r.later(HEADER_WORDS))?;
    agreed_section(h.boards, h.kinds.count, &words[kinds_at..]).map_err(|r| r.later(kinds_at))?;
    Ok(h)
}
