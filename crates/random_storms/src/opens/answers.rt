//! Answers, and the questions that they are to.
use path_guard::Answer;
use storm_parts::ProfileName;

/// What a session was answered.
#[derive(Clone, Copy)]
pub(crate) struct Answered {
    /// The number of the question.
    pub question: usize,
    /// The name of the profile that the session opened by.
    pub profile: ProfileName,
    pub answer: Answer,
    /// Whether it had kept the verdict.
    pub is_kept: bool,
}
