//! Tables whose bounds are verified, and names run through them: no index leaves them, whatever the bytes. It needs neither the
//! parser nor the compiler.
//!
//! The definitions to believe are those in `specs/`; those in `specs/inner/` are of private contracts and proofs.
#![tactic(auto)]

mod byte_loop;
mod chains;
mod eight;
mod entries;
mod image;
mod judgment;
mod laws;
mod loaded;
mod look_ups;
mod runs;
mod steps;
mod verification;
mod verified;

pub use byte_loop::run_from;
pub use eight::look_up_eight;
pub use entries::{Entries, Reader};
pub use image::{ImageEntries, VerifiedImage, verify_image};
pub use judgment::{judge, judge_image};
pub use laws::{chains_fall, look_ups_are_bounded, tables_in_bounds_run};
pub use loaded::LoadedProfile;
pub use look_ups::LookUps;
pub use runs::{record_by_image, record_of_name, run, run_image};
pub use steps::Steps;
pub use verification::verify;
pub use verified::{State, TableEntries, VerifiedTable};
