//! What tests share: test cases as programs of tests read them; numbers that look random, paths and changes that are drawn by them or
//! written as lines; a small tree; texts of profiles, tables and their images, verified or not; and rounds that threads begin together.
#![tactic(auto)]

mod bytes;
mod case;
mod draws;
mod lines;
mod paths;
mod profile_texts;
mod raw_tables;
mod rounds;
mod texts;
mod toy;
mod verification;

pub use bytes::bytes_of;
pub use case::Case;
pub use draws::{DrawnChange, Random};
pub use lines::{change_of_line, split_at_space};
pub use paths::NumberedPath;
pub use profile_texts::PROFILE_TEXTS;
pub use raw_tables::{
    copy_of_table, image_of_table, put, smallest_chained_image, smallest_image, tables_are_equal,
    three_states_image,
};
pub use rounds::{ROUNDS, Rounds, share};
pub use texts::{path, perms, perms_of, profile_text};
pub use toy::{EndsAfter, Place, SmallTree};
pub use verification::{fault_of, is_accepted, verified};
