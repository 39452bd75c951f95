//! What rules mean: the items of a path and the pattern that they stand for, which names a pattern matches, and the verdict of
//! rules on a name, as definitions. A name is matched by its live places, in one pass over the
//! items for each 64 bytes.
//!
//! The definitions to believe are those in `specs/`; those in `specs/inner/` are of private contracts and
//! proofs.
#![tactic(auto)]

mod block;
mod byte_bits;
mod items;
mod laws;
mod live;
mod matches;
mod path;

pub use items::{ByteRange, Class, Item, Stars};
pub use laws::{
    allowed_alone, byte_zero_never, end_is_live, live_is_left_first, live_places_go_on,
    one_verdict_is_right, takes_by_cuts,
};
pub use path::{MOST_ITEMS, MOST_PLACES, RulePath};
