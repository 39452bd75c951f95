//! Opens during changes: a session walks over the row of words that threads share, judges by the published policy, and waits
//! for nobody.
//!
//! [`Session::try_open`] answers concurrently with the tree's keeper and the policy's publisher, or says that the tree was
//! being changed; [`Session::open_with`] answers at once when the keeper is held exclusively, and [`Session::link_with`] makes
//! hard links. If the publisher is held exclusively, too, [`Session::open_with_both`] and [`Session::link_with_both`] answer by
//! all that it has published.
//!
//! The definitions to believe are those in `specs/`.
#![tactic(auto)]

mod at_hand;
mod keeper_opens;
mod knowledge;
mod links;
mod quick;
mod session;
mod share;
mod unanswered;

pub use justification::{Answer, justify};
pub use mediation::LinkAnswer;
pub use session::Session;
pub use unanswered::Unanswered;
