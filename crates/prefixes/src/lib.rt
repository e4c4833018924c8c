// The words of an expression in prefix order, from the words as they were typed with the depth at which each stands.
#![tactic(auto)]

ghost use Rattle.std.specs.Prelude.{◌≡◌, ◌+◌, ◌≤◌, ◌<◌, length};
ghost use Rattle.std.proofs.lemmas.List.Edits.{sets};
ghost use Rattle.typed.specs.Scanning.{Item, outranks, chief, prefixed};

use std::marker::Model;

// The codes of the words that join two operands.
pub const OR: u16 = 4;

pub const AND: u16 = 5;

// A word of an expression, by its code, and how many parentheses stand open around it.
#[derive(Clone, Copy, Debug, PartialEq, Eq)]
pub struct Item {
    pub code: u16,
    pub depth: usize,
}

impl Model for Item {
    ghost use Rattle.typed.specs.Scanning.{Item};

    ghost Value = { Item };

    ghost view = { λ x. record { code = x.code; depth = x.depth } };

    ghost inverse = { λ x. record { code = x.code; depth = x.depth } };
}

impl Item {
    // Whether the word binds looser than one before it: at a lesser depth, or at the same one where it joins operands and binds no tighter.
    fn outranks(self, earlier: Item) -> bool
        ensures { result ≡ outranks self earlier }
    {
        if self.depth != earlier.depth {
            return self.depth < earlier.depth;
        }
        match self.code {
            OR => true,
            AND => earlier.code != OR,
            _ => false,
        }
    }
}

// The place of the word that binds loosest.
fn chief(items: &[Item]) -> usize
    requires { 1 ≤ length items.now }
    ensures loosest { result ≡ chief items.now }
    ensures within { result < length items.now }
{
    let mut best = 0;
    for (i, item) in items.iter().enumerate() {
        if item.outranks(items[best]) {
            best = i;
        }
    }
    best
}

// Puts the words in prefix order, from a place on: the loosest, then those before it, then those after it.
pub fn put_prefix(items: &[Item], words: &mut [u16], at: usize)
    requires { at + length items.now ≤ length words.old }
    ensures { words.new ≡ sets words.old at (prefixed items.now) }
{
    if items.is_empty() {
        return;
    }
    let top = chief(items);
    let next = top + 1;
    let loosest = items[top];
    words[at] = loosest.code;
    put_prefix(&items[..top], words, at + 1);
    put_prefix(&items[next..], words, at + next);
}
