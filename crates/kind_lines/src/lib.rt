// Kind lines, tested at the front of the words of their section.
#![tactic(auto)]

ghost use Rattle.std.specs.Prelude.{◌≡◌, nat_le};
ghost use Rattle.std.specs.List.{position};
ghost use Rattle.rules.specs.Descriptions.{kind_line};
ghost use Rattle.kind_lines.specs.Found.{kind_found};

use answers::limits::{LINE_WORDS, MOST_WAYS};
use answers::refusals::{Fault, Refusal};

// The place of the first way that is no board below v.
fn first_stranger(v: usize, ways: &[u16]) -> Option<usize>
    ensures { result ≡ position (nat_le v) ways.now }
{
    ways.iter().position(|&way| v <= usize::from(way))
}

// Tests the kind line at the front of the words, for boards below v, and counts the words after it.
pub fn kind_line(v: usize, words: &[u16]) -> Result<usize, Refusal>
    ensures { result ≡ kind_found (kind_line v words.now) }
{
    if words.len() < LINE_WORDS {
        return Err(Fault::Unfit.at(words.len()));
    }
    let n = usize::from(words[2]);
    if MOST_WAYS < n {
        return Err(Fault::Unfit.at(2));
    }
    if words.len() - LINE_WORDS < n {
        return Err(Fault::Unfit.at(words.len()));
    }
    if v <= usize::from(words[0]) {
        return Err(Fault::NoBoard.at(0));
    }
    let end = LINE_WORDS + n;
    if let Some(i) = first_stranger(v, &words[LINE_WORDS..end]) {
        return Err(Fault::NoBoard.at(LINE_WORDS + i));
    }
    Ok(words.len() - end)
}
