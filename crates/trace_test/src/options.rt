//! What a test shows.
use trace_report::Format;

/// What a test shows, and how.
#[derive(Clone, Copy)]
pub struct TestOptions {
    /// What its lines are written in.
    pub format: Format,
    /// Whether each answer is shown, as `run` prints it.
    pub answers: bool,
}
