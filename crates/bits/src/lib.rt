// Sets of small numbers as the bits of a word, a bit for each number.
#![tactic(auto)]

ghost use Rattle.std.specs.Prelude.{◌≡◌, ◌<◌, bit_and};
ghost use Rattle.bits.specs.Sets.{word_bits, added, Taken};

use std::marker::Model;
use std::ops::BitAnd;

// A set of numbers below the bits of a word.
#[derive(Clone, Copy, Debug, PartialEq, Eq)]
pub struct NumberSet {
    bits: u32,
}

impl Model for NumberSet {
    ghost use Rattle.std.specs.Prelude.{ℕ, ◌<◌, ◌^◌};

    ghost Value = { ℕ };

    ghost use Rattle.bits.specs.Sets.{word_bits};

    ghost view = { λ s. s.bits };

    ghost invariant = { λ s. s.bits < 2 ^ word_bits };

    ghost inverse = { λ n. record { bits = n } };
}

impl NumberSet {
    // The set without a number.
    pub const EMPTY: NumberSet = NumberSet { bits: 0 };

    // Puts a number into the set, whether or not the set had it.
    pub fn insert(&mut self, i: usize)
        requires { i < word_bits }
        ensures { self.new ≡ added self.old i }
    {
        self.bits |= 1 << i;
    }

    // Takes the least number out of the set, and answers it.
    pub fn pop(&mut self) -> Option<usize>
        ensures { Taken self.old self.new result }
    {
        if self.bits == 0 {
            return None;
        }
        let i = self.bits.trailing_zeros() as usize;
        self.bits -= 1 << i;
        Some(i)
    }
}

// The numbers that two sets have.
impl BitAnd for NumberSet {
    type Output = NumberSet;

    ghost bitand_gives = { λ x y r. r ≡ bit_and x y };

    fn bitand(self, other: NumberSet) -> NumberSet {
        NumberSet {
            bits: self.bits & other.bits,
        }
    }
}
