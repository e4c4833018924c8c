// The refusals by their numbers, in the order in which they are looked for; and their places.
ghost use Rattle.std.specs.Prelude.{◌≡◌, ◌+◌, ◌^◌, ◌<◌};
ghost use Rattle.answers.specs.Answers.{number_of, later_by};

// Why a call refuses, by the number that the rules document gives it.
#[derive(Clone, Copy, Debug, PartialEq, Eq)]
pub enum Fault {
    // The description has too few words for a header, or a number of the header is out of range.
    OutOfRange = 1,
    // An offset of the header or its total is wrong.
    Misplaced = 2,
    // A line does not fit its section, its length or number of ways is out of range, or words are left over.
    Unfit = 3,
    // A line names a board that the site has not.
    NoBoard = 4,
    // An expression has a code that there is not, or does not use its length exactly.
    NoExpression = 5,
    // A kind line has the code of an earlier one and another number of ways. It is looked for after 5 and before 6.
    Disagrees = 11,
    // The table has a wrong number of cells, or a cell that is no set.
    NoTable = 6,
    // Closing: the largest closed table has an empty cell.
    Contradictory = 7,
    // The search: there is no arrangement inside the table.
    Nowhere = 8,
    // The search: more tries are needed than the budget allows.
    RanOut = 9,
    // The check: the table is no arrangement.
    NoArrangement = 10,
    // The text calls: the lent room is too small.
    NoRoom = 19,
    // The text reader: a line of the text is malformed.
    NoSheet = 20,
}

impl Fault {
    // The refusal of a description with this fault, at this place.
    pub fn at(self, place: usize) -> Refusal
        ensures { result ≡ record { fault = self; place = place } }
    {
        Refusal { fault: self, place }
    }
}

impl From<Fault> for u8 {
    ghost from_gives = { λ f n. n ≡ number_of f };

    fn from(fault: Fault) -> u8 {
        fault as u8
    }
}

// Why a call refuses, with its count.
#[derive(Clone, Copy, Debug, PartialEq, Eq)]
pub struct Refused {
    pub fault: Fault,
    pub count: u32,
}

// Why a description or what is lent with it is refused, and its place in the words that were read. That is the index of the first word that breaks the rule or,
// where words are missing, the place just after those that there are.
#[derive(Clone, Copy, Debug, PartialEq, Eq)]
pub struct Refusal {
    pub fault: Fault,
    pub place: usize,
}

impl Refusal {
    // The same refusal, where so many words stand before those that were read.
    pub fn later(self, words: usize) -> Refusal
        requires { words + self.place < 2 ^ 64 }
        ensures { result ≡ later_by words self }
    {
        Refusal {
            fault: self.fault,
            place: words + self.place,
        }
    }

    // What a call answers that refuses so: its count is the place.
    pub fn refused(self) -> Refused
        requires { self.place < 2 ^ 32 }
        ensures { result ≡ record { fault = self.fault; count = self.place } }
    {
        Refused {
            fault: self.fault,
            count: self.place as u32,
        }
    }
}
