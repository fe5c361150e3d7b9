// Why there is no pack.
use refusal::Refusal;
use std::alloc::{AllocError, AllocFailed};
use std::error::Error;
use std::fmt;

// A line that can't be read, or at which the text's reading fails; a line whose record the writer refuses.
#[derive(Clone, Copy, PartialEq, Eq, Debug)]
pub enum Fault {
    Unread(u32),
    Refused(u32, Refusal),
    OutOfMemory,
}

impl From<AllocError> for Fault {
    fn from(_: AllocError) -> Fault {
        Fault::OutOfMemory
    }
}

impl<T: Drop> From<AllocFailed<T>> for Fault {
    fn from(_: AllocFailed<T>) -> Fault {
        Fault::OutOfMemory
    }
}

impl fmt::Display for Fault {
    fn fmt<W: fmt::Write>(&self, f: &mut fmt::Formatter<W>) -> fmt::Result {
        match self {
            Fault::Unread(line) => write!(f, "line {line} can't be read"),
            Fault::Refused(line, refusal) => {
                let number = refusal.number();
                write!(f, "line {line}: refused with {number}")
            }
            Fault::OutOfMemory => write!(f, "out of memory"),
        }
    }
}

impl Error for Fault {}
