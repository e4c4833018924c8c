// What a case asks for, and the calls of the solver: each writes what it answers, and what it leaves in the cells, which come as they are lent.
use crate::says::{Answer, say_table};
use std::io;
use std::io::Write;

// A call of the solver, a case of the program, or a call that reads or writes a text.
#[derive(Clone, Copy, Debug, PartialEq, Eq)]
pub(crate) enum Call {
    Solver(SolverCall),
    Site,
    FromText,
    ToText,
}

// The calls of the solver.
#[derive(Clone, Copy, Debug, PartialEq, Eq)]
pub(crate) enum SolverCall {
    Read,
    Open,
    Close,
    Search,
    Check,
}

impl From<u32> for Call {
    // The call of this number: a search, unless it is that of another call.
    fn from(number: u32) -> Call {
        match number {
            0 => Call::Solver(SolverCall::Read),
            1 => Call::Solver(SolverCall::Open),
            2 => Call::Solver(SolverCall::Close),
            4 => Call::Solver(SolverCall::Check),
            5 => Call::Site,
            6 => Call::FromText,
            7 => Call::ToText,
            _ => Call::Solver(SolverCall::Search),
        }
    }
}

impl SolverCall {
    // Makes the call; the number is the budget for a search.
    pub(crate) fn make<W: Write>(
        self,
        out: &mut W,
        number: u32,
        words: &[u16],
        lent: &[u8],
        cells: &mut [u8],
    ) -> io::Result<()> {
        match self {
            SolverCall::Read => {
                let answer = Answer::from(talung::talung_read(words));
                return writeln!(out, "read {answer}");
            }
            SolverCall::Check => {
                let answer = Answer::from(talung::talung_check(words, lent));
                return writeln!(out, "check {answer}");
            }
            SolverCall::Open => {
                let answer = Answer::from(talung::talung_open(words, cells));
                write!(out, "open {answer}")?;
            }
            SolverCall::Close => {
                let answer = Answer::from(talung::talung_close(words, cells));
                write!(out, "close {answer}")?;
            }
            SolverCall::Search => {
                let answer = Answer::from(talung::talung_search(words, cells, number));
                write!(out, "search {answer}")?;
            }
        }
        say_table(out, lent, cells)
    }
}
