// Puts the words of typed lines: the three that every line begins with, and any others.
#![tactic(auto)]

ghost use Rattle.std.specs.Prelude.{◌≡◌, ◌+◌, ◌≤◌, length};
ghost use Rattle.std.proofs.lemmas.List.Edits.{sets};
ghost use Rattle.taken.specs.Lines.{Begun};

// Puts the first three words of a line from a place on, and answers the next place.
pub fn put_start(words: &mut [u16], at: usize, first: u16, second: u16, count: u16) -> usize
    requires { at + 3 ≤ length words.old }
    ensures { Begun words.old at first second count words.new result }
{
    let start = [first, second, count];
    put_words(words, at, &start);
    at + start.len()
}

// Puts some words from a place on.
#[tactic(auto, using(crate::proofs::Parts::part_sets))]
pub fn put_words(room: &mut [u16], at: usize, words: &[u16])
    requires { at + length words.now ≤ length room.old }
    ensures { room.new ≡ sets room.old at words.now }
{
    room[at..at + words.len()].copy_from_slice(words);
}
