//! What an answer lists, and how it is written.
use question_answers::Witnesses;
use trace_report::Format;

/// Which names an answer lists, and how it is written.
#[derive(Clone, Copy, Debug, PartialEq, Eq)]
pub struct Report {
    pub witnesses: Witnesses,
    pub format: Format,
}
