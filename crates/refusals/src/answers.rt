//! Answers to opens, as they are printed.
use justification::Answer;
use std::fmt;

/// An answer, and the name that was judged, which is empty if none was.
#[derive(Clone, Copy)]
pub(crate) struct Named<'a> {
    pub(crate) answer: Answer,
    pub(crate) name: &'a [u8],
}

impl fmt::Display for Named<'_> {
    fn fmt<W: fmt::Write>(&self, f: &mut fmt::Formatter<W>) -> fmt::Result {
        let name = name_text(self.name);
        match self.answer {
            Answer::Judged {
                verdict,
                node,
                tree_version: tree,
                policy_version: policy,
            } => write!(
                f,
                "{verdict} {name} node {node} tree {tree} policy {policy}"
            ),
            Answer::Failed {
                errno,
                tree_version: tree,
            } => write!(f, "{errno} {name} tree {tree}"),
            Answer::NoProfile {
                policy_version: policy,
            } => write!(f, "no profile {name} policy {policy}"),
            Answer::Busy { began, ended } => write!(f, "busy {name} {began} {ended}"),
            Answer::NoEntry => write!(f, "no entry {name}"),
        }
    }
}

/// A name, and a dash if it is empty.
pub(crate) fn name_text(name: &[u8]) -> &str {
    match str::from_utf8(name) {
        Ok("") => "-",
        Ok(text) => text,
        Err(_) => "?",
    }
}
