// What a line of a case file comes to: an `Outcome`, or a `Failure`, which says why not.
use std::alloc::{AllocError, AllocFailed};
use std::error::Error;
use std::fmt;

#[derive(Clone, Copy, Debug, PartialEq, Eq)]
pub enum Outcome {
    // a case whose answer is the one that it asks for
    Passed,
    // a line that is no case, but prepares those after it
    SetUp,
}

#[derive(Debug, Drop)]
pub enum Failure {
    // a line that is none of the cases of its call, or whose default or file can't be read
    Unreadable,
    // what beside the answer's numbers differs
    Differs(&'static str),
    // the numbers that the case asks for, and those that came, in words
    Answers(String),
    OutOfMemory(AllocError),
}

impl fmt::Display for Failure {
    fn fmt<W: fmt::Write>(&self, f: &mut fmt::Formatter<W>) -> fmt::Result {
        match self {
            Failure::Unreadable => write!(f, "cannot be read"),
            Failure::Differs(what) => write!(f, "{what}"),
            Failure::Answers(words) => write!(f, "{words}"),
            Failure::OutOfMemory(_) => write!(f, "out of memory"),
        }
    }
}

impl Error for Failure {}

impl From<AllocError> for Failure {
    fn from(e: AllocError) -> Failure {
        Failure::OutOfMemory(e)
    }
}

impl<T: Drop> From<AllocFailed<T>> for Failure {
    fn from(e: AllocFailed<T>) -> Failure {
        Failure::OutOfMemory(e.into())
    }
}
