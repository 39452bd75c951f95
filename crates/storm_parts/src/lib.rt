//! What storms, refused calls and tests of sessions share: profiles, scripts and questions that are drawn; the calls that `refusals`
//! makes, how one may differ where memory is refused, calls that are made again, long results in short, and the changes and profiles
//! that calls are made with; keepers, publishers and sessions, and answers to opens.
#![tactic(auto)]

mod answers;
mod call;
mod changes;
mod difference;
mod hash;
mod profiles;
mod questions;
mod retry;
mod script;
mod sessions;
mod text_profiles;

pub use answers::{failed, judged};
pub use call::Call;
pub use changes::{path, tree_changes};
pub use difference::{Difference, How, Stop, expect};
pub use hash::Hash;
pub use profiles::{PROFILES, ProfileName, draw_profiles};
pub use questions::{QUESTIONS, Question, draw_questions};
pub use retry::{again, expect_ok};
pub use script::draw_script;
pub use sessions::{
    apply, compiled, first_keeper, new_keeper, new_publisher, select, session, sessions_of,
};
pub use test_parts::{DrawnChange, NumberedPath, ROUNDS, Random, Rounds, share};
pub use text_profiles::{compiled_of, read_text, shared_of};
