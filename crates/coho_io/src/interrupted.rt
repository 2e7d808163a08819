use std::io::{Error, ErrorKind};

/// How often a call is tried that a signal breaks off each time.
pub const TRIES: u32 = 64;

/// A signal broke the call off, so that it is to be tried again.
pub fn is_interrupted(error: &Error) -> bool {
    error.kind() == ErrorKind::Interrupted
}

/// The error of a call that was broken off at each try.
pub fn interrupted() -> Error {
    Error::from(ErrorKind::Interrupted)
}
