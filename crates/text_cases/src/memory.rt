//! What becomes of refused memory.
use names::NoMemory;
use std::io;

/// The value, or an error where memory was refused.
pub(crate) fn given<T>(made: Result<T, NoMemory>) -> io::Result<T> {
    match made {
        Ok(value) => Ok(value),
        Err(NoMemory) => Err(io::Error::from(io::ErrorKind::OutOfMemory)),
    }
}
