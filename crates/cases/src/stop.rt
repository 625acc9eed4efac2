// Why a command cannot be run. No other one follows it.
use std::fmt;

#[derive(Clone, Copy)]
pub(crate) enum Stop {
    BadCommand,
    BookTooLarge,
    NoSuchNumber,
    OutputTooLarge,
}

impl fmt::Display for Stop {
    fn fmt<W: fmt::Write>(&self, f: &mut fmt::Formatter<W>) -> fmt::Result {
        match self {
            Stop::BadCommand => write!(f, "bad command"),
            Stop::BookTooLarge => write!(f, "book too large"),
            Stop::NoSuchNumber => write!(f, "no such number"),
            Stop::OutputTooLarge => write!(f, "output too large"),
        }
    }
}
