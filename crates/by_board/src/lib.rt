// The kind lines of a description, found by board: those with a panel there, or with a way, without looking at all of them. What tells them, the index,
// is made once for many questions.
#![tactic(auto)]

ghost use Rattle.std.specs.Prelude.{◌≡◌, ◌+◌, ◌<◌, replicate};
ghost use Rattle.rules.specs.Descriptions.{most_boards, most_ways};
ghost use Rattle.kinds.specs.Lines.{kind_at};
ghost use Rattle.by_board.specs.Found.{start_of, index_words, with_panel, with_way, places_of, Fitting, Begins, Indexed, Located};

use answers::limits::{MOST_BOARDS, MOST_KINDS, MOST_WAYS};
use bits::NumberSet;
use kinds::{KindLine, kind_at};
use std::marker::Model;

// A board and a place among the ways, for each of both.
const SPOTS: usize = MOST_WAYS * MOST_BOARDS;

// A start for each line that there may be.
const STARTS: usize = MOST_KINDS;

// For each board the lines, by their numbers, that have their panel there; for each board and place those that have it as their way there; for each board the
// places in which it is a way; and where each line begins.
#[derive(Drop)]
pub struct Index {
    by_panel: [NumberSet; MOST_BOARDS],
    by_way: [NumberSet; SPOTS],
    places: [NumberSet; MOST_BOARDS],
    starts: [u32; STARTS],
}

impl Model for Index {
    ghost use Rattle.std.specs.Prelude.{◌≡◌, ◌*◌, List, ℕ, ◌++◌, length};
    ghost use Rattle.rules.specs.Descriptions.{most_boards, most_kinds, most_ways};

    ghost Value = { List ℕ };

    ghost view = { λ x. x.by_panel ++ (x.by_way ++ (x.places ++ x.starts)) };

    ghost invariant = { λ x. (length x.by_panel ≡ most_boards) × (length x.by_way ≡ most_ways * most_boards) × (length x.places ≡ most_boards) × (length x.starts ≡ most_kinds) };
}

impl Index {
    // An index of no lines.
    fn empty() -> Index
        ensures { result ≡ replicate index_words 0 }
    {
        Index {
            by_panel: [NumberSet::EMPTY; MOST_BOARDS],
            by_way: [NumberSet::EMPTY; SPOTS],
            places: [NumberSet::EMPTY; MOST_BOARDS],
            starts: [0; STARTS],
        }
    }

    // Puts line n, which begins at the word `at`, into the index of the lines before it. Answers where the next line begins.
    fn put_line(&mut self, words: &[u16], n: usize, at: usize) -> usize
        requires { Begins n words.now at × Indexed n words.now self.old }
        ensures { (result ≡ start_of words.now (n + 1)) × Indexed (n + 1) words.now self.new }
    {
        let line = kind_at(words, at);
        self.by_panel[line.p].insert(n);
        let first = line.first;
        let end = line.end;
        let ways = &words[first..end];
        for (i, &way) in ways.iter().enumerate() {
            let y = usize::from(way);
            self.by_way[MOST_WAYS * y + i].insert(n);
            self.places[y].insert(i);
        }
        self.starts[n] = at as u32;
        end
    }

    // Makes the index of the kind lines.
    pub fn new(count: usize, words: &[u16]) -> Index
        requires { Fitting count words.now }
        ensures { Indexed count words.now result }
    {
        let mut index = Index::empty();
        let mut at = 0;
        for n in 0..count {
            at = index.put_line(words, n, at);
        }
        index
    }

    // Kind line n, which the index finds in the words.
    fn line_of(&self, words: &[u16], n: usize) -> KindLine
        requires { Located n words.now self.now }
        ensures { result ≡ kind_at words.now (start_of words.now n) }
    {
        kind_at(words, self.starts[n] as usize)
    }

    // The lines whose panel is board b.
    pub fn with_panel(&self, b: usize) -> NumberSet
        requires { b < most_boards }
        ensures { result ≡ with_panel self.now b }
    {
        self.by_panel[b]
    }

    // The lines that have board b in place i of their ways.
    pub fn with_way(&self, b: usize, i: usize) -> NumberSet
        requires { (b < most_boards) × (i < most_ways) }
        ensures { result ≡ with_way self.now b i }
    {
        self.by_way[MOST_WAYS * b + i]
    }

    // The places i in which board b is the way of some line: those for which `with_way` is not empty.
    pub fn places(&self, b: usize) -> NumberSet
        requires { b < most_boards }
        ensures { result ≡ places_of self.now b }
    {
        self.places[b]
    }
}

// The kind lines of a description for so many boards: how many they are, the words that they fill, and the index that finds them by board.
#[derive(Clone, Copy)]
pub struct KindLines<'a> {
    pub boards: usize,
    pub count: usize,
    pub words: &'a [u16],
    pub index: &'a Index,
}

impl KindLines<'_> {
    // Kind line n.
    pub fn line(&self, n: usize) -> KindLine
        requires { Located n self.now.words.now self.now.index.now }
        ensures { result ≡ kind_at self.now.words.now (start_of self.now.words.now n) }
    {
        self.index.line_of(self.words, n)
    }
}
