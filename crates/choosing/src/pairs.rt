// The pairs of boards that the search chooses at: p < q, by p and then q.
ghost use Rattle.std.specs.Prelude.{◌≡◌, ◌+◌, ◌<◌, ◌≤◌};
ghost use Rattle.rules.specs.Descriptions.{most_boards};
ghost use Rattle.choosing.specs.Pairs.{IsPair};

// A pair of boards p < q, and how many pairs come before it. Past the last pair q is the number of boards.
#[derive(Clone, Copy, Debug, PartialEq, Eq)]
pub(crate) struct Pair {
    pub(crate) p: usize,
    pub(crate) q: usize,
    pub(crate) index: usize,
}

impl Pair {
    // The first pair of boards.
    pub(crate) fn first(v: usize) -> Pair
        requires { 0 < v }
        ensures { IsPair v result × (result.index ≡ 0) }
    {
        Pair {
            p: 0,
            q: 1,
            index: 0,
        }
    }

    // The pair of boards that comes after this one.
    pub(crate) fn after(self, v: usize) -> Pair
        requires { (v ≤ most_boards) × IsPair v self × (self.q < v) }
        ensures { IsPair v result × (result.index ≡ self.index + 1) }
    {
        let index = self.index + 1;
        if self.q + 1 < v {
            return Pair {
                q: self.q + 1,
                index,
                ..self
            };
        }
        Pair {
            p: self.p + 1,
            q: self.p + 2,
            index,
        }
    }

    // The pair of boards that comes before this one.
    pub(crate) fn before(self, v: usize) -> Pair
        requires { (v ≤ most_boards) × IsPair v self × (0 < self.index) }
        ensures { IsPair v result × (result.q < v) × (result.index + 1 ≡ self.index) }
    {
        let index = self.index - 1;
        if self.p + 1 < self.q {
            return Pair {
                q: self.q - 1,
                index,
                ..self
            };
        }
        Pair {
            p: self.p - 1,
            q: v - 1,
            index,
        }
    }
}
