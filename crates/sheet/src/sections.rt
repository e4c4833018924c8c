// The two sections of lines, each filled exactly by its lines. Each has a loop of its own, which takes less time than one loop for both sorts of line.
// Stays: one function for both is no plainer, as its bound has to tell what a line means, by a type of its own, and that a refusal lies within the words.
ghost use Rattle.std.specs.Prelude.{◌≡◌};
ghost use Rattle.rules.specs.Descriptions.{next, relation_line, kind_line, section, agreed};
ghost use Rattle.sheet.specs.Found.{section_found, end_found};

use answers::refusals::{Fault, Refusal};

// A section after its last line, at this word: words left over are refused.
fn ended(at: usize, over: usize) -> Result<(), Refusal>
    ensures { result ≡ end_found at over }
{
    if 0 < over {
        return Err(Fault::Unfit.at(at));
    }
    Ok(())
}

// Reads a section of `count` relation lines, for boards below v.
pub(crate) fn relation_section(v: usize, count: usize, words: &[u16]) -> Result<(), Refusal>
    ensures { result ≡ section_found (section (relation_line v) count words.now) }
{
    let mut at = 0;
    for _ in 0..count {
        let rest = lines::relation_told(v, &words[at..]).map_err(|r| r.later(at))?;
        at = words.len() - rest;
    }
    ended(at, words.len() - at)
}

// Reads a section of `count` kind lines, for boards below v.
fn kind_section(v: usize, count: usize, words: &[u16]) -> Result<(), Refusal>
    ensures { result ≡ section_found (section (kind_line v) count words.now) }
{
    let mut at = 0;
    for _ in 0..count {
        let rest = kind_lines::kind_line(v, &words[at..]).map_err(|r| r.later(at))?;
        at = words.len() - rest;
    }
    ended(at, words.len() - at)
}

// Reads a section of `count` kind lines, for boards below v, and then looks for one that disagrees with an earlier one: it is refused at its number of ways.
#[tactic(auto, using(crate::proofs::Agreed::kinds_apart))]
pub(crate) fn agreed_section(v: usize, count: usize, words: &[u16]) -> Result<(), Refusal>
    ensures { result ≡ section_found (next (section (kind_line v) count words.now) agreed) }
{
    kind_section(v, count, words)?;
    if let Some(at) = arities::first_disagreeing(count, words) {
        return Err(Fault::Disagrees.at(at + 2));
    }
    Ok(())
}
