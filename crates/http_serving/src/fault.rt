//! Why a message got no answer, or no whole one.

use std::error::Error;
use std::fmt;

/// Why a message got no answer, or no whole one.
#[derive(Clone, Copy, Debug, PartialEq, Eq)]
pub enum IoFault {
    /// The message was not read. Nothing was handled.
    Read,
    /// The answer was not written, or not all of it. What was handled stays.
    Write,
}

impl fmt::Display for IoFault {
    fn fmt<W: fmt::Write>(&self, f: &mut fmt::Formatter<W>) -> fmt::Result {
        match self {
            IoFault::Read => write!(f, "the message was not read"),
            IoFault::Write => write!(f, "the answer was not written"),
        }
    }
}

impl Error for IoFault {}
