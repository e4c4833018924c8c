// Relations between two boards, and sets of them with their operations.
#![tactic(auto)]

ghost use Rattle.std.specs.Prelude.{◌≡◌, ℕ, ◌^◌, ◌<◌, nat_eq, replicate};
ghost use Rattle.relations.specs.declared.TheConstants.{RELATIONS, SETS};
ghost use Rattle.rules.specs.Descriptions.{most_cells};
ghost use Rattle.rules.specs.Relations.{set_limit, full, meet, join, complement, converse, size};

use answers::limits::MOST_CELLS;
use std::marker::Model;
use std::ops::{BitAnd, BitOr, Not};

// How many relations there are.
pub const RELATIONS: usize = 4;

// How many sets of relations there are.
pub const SETS: usize = 1 << RELATIONS;

// The number of the set of all relations.
const FULL: u8 = 15;

// Each set as seen from the other board, with A and B exchanged.
const CONVERSE_ENTRIES: [u8; SETS] = [
    0, // nothing
    1, // E
    4, // A
    5, // EA
    2, // B
    3, // EB
    6, // AB
    7, // EAB
    8, // S
    9, // ES
    12, // AS
    13, // EAS
    10, // BS
    11, // EBS
    14, // ABS
    15, // EABS
];

// The same, laid out once for all.
static CONVERSES: [u8; SETS] = CONVERSE_ENTRIES;

// One relation between two boards. Clauses see its number, as the orders of a search are lists of numbers: an enum could have no such model.
#[derive(Clone, Copy, Debug, PartialEq, Eq)]
pub struct Relation {
    number: u8,
}

impl Model for Relation {
    ghost Value = { ℕ };

    ghost view = { λ r. r.number };

    ghost invariant = { λ r. r.number < RELATIONS };

    ghost inverse = { λ n. record { number = n } };
}

impl Relation {
    // One board is the other.
    pub const SAME: Relation = Relation { number: 0 };

    // The first board lies strictly above the second.
    pub const ABOVE: Relation = Relation { number: 1 };

    // The first board lies strictly below the second.
    pub const BELOW: Relation = Relation { number: 2 };

    // None of these: they lie beside each other.
    pub const SIDE: Relation = Relation { number: 3 };
}

// A set of relations between two boards, a bit for each. Clauses see the number that the bits make.
#[derive(Clone, Copy, Debug, PartialEq, Eq)]
pub struct RelationSet {
    bits: u8,
}

impl Model for RelationSet {
    ghost Value = { ℕ };

    ghost view = { λ s. s.bits };

    ghost invariant = { λ s. s.bits < SETS };

    ghost inverse = { λ n. record { bits = n } };
}

impl RelationSet {
    // The four relations, each as a set of one: same board, above, below, side.
    pub const E: RelationSet = RelationSet { bits: 1 };

    pub const A: RelationSet = RelationSet { bits: 2 };

    pub const B: RelationSet = RelationSet { bits: 4 };

    pub const S: RelationSet = RelationSet { bits: 8 };

    // The set of no relation.
    pub const EMPTY: RelationSet = RelationSet { bits: 0 };

    // The set of all relations.
    pub const FULL: RelationSet = RelationSet { bits: FULL };

    // The set of same and above: one board is the other, or above it.
    pub const AT_OR_ABOVE: RelationSet = RelationSet { bits: 3 };

    // The set of all relations but above.
    pub const NOT_ABOVE: RelationSet = RelationSet { bits: 13 };

    // The set of all relations but same.
    pub const NOT_SAME: RelationSet = RelationSet { bits: 14 };

    // The set of this number.
    #[tactic(auto, unfolding(rules::specs::Relations::relations))]
    pub fn new(bits: u8) -> RelationSet
        requires { bits < set_limit }
        ensures { result ≡ bits }
    {
        RelationSet { bits }
    }

    // Tells whether the set has no relation.
    pub fn is_empty(self) -> bool
        ensures { result ≡ nat_eq self 0 }
    {
        self.bits == 0
    }

    // The number of relations in the set.
    #[tactic(auto, using(crate::proofs::Operations::ones_count))]
    pub fn len(self) -> u32
        ensures { result ≡ size self }
    {
        self.bits.count_ones()
    }

    // The set as seen from the other board.
    #[tactic(auto, using(crate::proofs::Operations::turned))]
    pub fn converse(self) -> RelationSet
        ensures { result ≡ converse self }
    {
        RelationSet {
            bits: CONVERSES[usize::from(self.bits)],
        }
    }
}

// The set of one relation.
impl From<Relation> for RelationSet {
    ghost from_gives = { λ r s. s ≡ 2 ^ r };

    #[tactic(auto, using(crate::proofs::Operations::single_in))]
    fn from(relation: Relation) -> RelationSet {
        RelationSet {
            bits: 1 << relation.number,
        }
    }
}

// The number of a set.
impl From<RelationSet> for u8 {
    ghost from_gives = { λ s n. (n ≡ s) × (n < set_limit) };

    #[tactic(auto, unfolding(rules::specs::Relations::relations))]
    fn from(set: RelationSet) -> u8 {
        set.bits
    }
}

// The relations that both sets have.
impl BitAnd for RelationSet {
    type Output = RelationSet;

    ghost bitand_gives = { λ x y r. r ≡ meet x y };

    #[tactic(auto, using(crate::proofs::Operations::and_meets))]
    fn bitand(self, other: RelationSet) -> RelationSet {
        RelationSet {
            bits: self.bits & other.bits,
        }
    }
}

// The relations that either set has.
impl BitOr for RelationSet {
    type Output = RelationSet;

    ghost bitor_gives = { λ x y r. r ≡ join x y };

    #[tactic(auto, using(crate::proofs::Operations::or_joins, crate::proofs::Operations::or_small))]
    fn bitor(self, other: RelationSet) -> RelationSet {
        RelationSet {
            bits: self.bits | other.bits,
        }
    }
}

// The relations that the set lacks.
impl Not for RelationSet {
    type Output = RelationSet;

    ghost not_gives = { λ x r. r ≡ complement x };

    #[tactic(auto, using(crate::proofs::Operations::rest_complements))]
    fn not(self) -> RelationSet {
        RelationSet {
            bits: FULL - self.bits,
        }
    }
}

// Room for the cells of a table as a call is lent it, of which nothing is known yet: each holds all relations.
pub fn full_room() -> [u8; MOST_CELLS]
    ensures { result ≡ replicate most_cells full }
{
    [FULL; MOST_CELLS]
}
