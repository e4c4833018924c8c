// What every call that is lent a description and a table looks at first: what is refused before anything else.
#![tactic(auto)]

ghost use Rattle.std.specs.Prelude.{◌≡◌};
ghost use Rattle.tables.specs.Asks.{asks};
ghost use Rattle.admitting.specs.Found.{admitted_found};

use answers::refusals::{Fault, Refusal};
use headers::Header;
use tables::Asked;

// Admits a call: reads the description, then looks whether the table has what is asked for.
#[tactic(auto, using(crate::proofs::Admitting::admit_no_table))]
pub fn admit(words: &[u16], table: &[u8], asked: Asked) -> Result<Header, Refusal>
    ensures { result ≡ admitted_found (asks asked) words.now table.now }
{
    let h = sheet::description(words)?;
    if !tables::as_asked(h.boards, table, asked) {
        return Err(Fault::NoTable.at(0));
    }
    Ok(h)
}
