//! What a command line orders, and why it orders nothing.

use sched_book::Moment;
use std::error::Error;
use std::fmt;
use texts::Text;

/// What a command line orders. Each `tables`, `settings` and `file` is the path of a file.
#[derive(Drop)]
pub enum Order {
    /// Make a tables file from a settings file.
    Create {
        settings: Text,
        tables: Text,
    },
    /// Serve `count` connections on this port of 127.0.0.1, one after the other.
    Serve {
        tables: Text,
        port: u16,
        count: u32,
    },
    /// Import the batch of this kind and this name; its text is in the file.
    Import {
        tables: Text,
        kind: Text,
        batch: Text,
        file: Text,
    },
    /// Handle a tick at this moment.
    Tick {
        tables: Text,
        at: Moment,
    },
    /// Print the statement of the host of this number.
    Statement {
        tables: Text,
        host: u32,
    },
    /// Upgrade tables of an older schema to the newest one.
    Upgrade {
        tables: Text,
    },
    /// Answer the messages of a run from standard input, with the default settings if no file is given.
    Replay {
        settings: Option<Text>,
    },
}

/// Why a command line orders nothing.
#[derive(Debug, Drop)]
pub enum OrderFault {
    /// The words are no order of the program.
    Refused,
    /// The words ask for help, and this is the text to show.
    Help(Text),
    /// There was no memory.
    Memory,
}

impl fmt::Display for OrderFault {
    fn fmt<W: fmt::Write>(&self, f: &mut fmt::Formatter<W>) -> fmt::Result {
        match self {
            OrderFault::Refused => write!(f, "bad command line"),
            OrderFault::Help(text) => f.write_str(text.as_str()),
            OrderFault::Memory => write!(f, "no memory"),
        }
    }
}

impl Error for OrderFault {}
