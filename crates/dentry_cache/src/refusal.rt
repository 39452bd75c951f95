/// No more walkers can share the row.
#[derive(Clone, Copy, Debug, PartialEq, Eq)]
pub struct NoSeat;
