//! Why a reader isn't made, and why it isn't answered.

use thiserror::Error;

/// No reader is made: each of the [`PLACES`](crate::PLACES) for readers was found taken, as may also happen while readers come and
/// go, or the store is already shared by as many as can be counted.
#[derive(Clone, Copy, Debug, PartialEq, Eq, Error)]
#[error("no place for a reader")]
pub struct NoSeat;

/// A reader isn't answered: the publisher is closed, or as many shares of the profile are held as can be counted.
#[derive(Clone, Copy, Debug, PartialEq, Eq, Error)]
#[error("no entry")]
pub struct NoEntry;
