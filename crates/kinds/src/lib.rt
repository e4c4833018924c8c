// Kind lines by their place in the words of a section that was read.
#![tactic(auto)]

ghost use Rattle.std.specs.Prelude.{◌≡◌, ◌+◌, ◌≤◌, ◌<◌, length, slice_index};
ghost use Rattle.kinds.specs.Lines.{kind_at};

use answers::limits::LINE_WORDS;

// p is a panel of this code, and feeds exactly the ways that stand from the word `first` up to the word `end`, where the next line begins.
#[derive(Clone, Copy)]
pub struct KindLine {
    pub p: usize,
    pub code: u16,
    pub first: usize,
    pub end: usize,
}

// The kind line that begins at the word `at`.
pub fn kind_at(words: &[u16], at: usize) -> KindLine
    requires { at + 3 ≤ length words.now }
    ensures { result ≡ kind_at words.now at }
{
    let first = at + LINE_WORDS;
    KindLine {
        p: usize::from(words[at]),
        code: words[at + 1],
        first,
        end: first + usize::from(words[at + 2]),
    }
}

// The board in place i of a line's ways.
pub fn way(ways: &[u16], i: usize) -> usize
    requires { i < length ways.now }
    ensures { result ≡ slice_index ways.now i }
{
    usize::from(ways[i])
}
