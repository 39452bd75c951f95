//! Answers as text.
ghost use Rattle.std.specs.Prelude.{◌≡◌, ◌++◌, IfOk, codes, decimal};
ghost use Rattle.mediating_server.specs.Answers.{told_text};
ghost use Rattle.guarded_row.specs.Opens.{IsNotBusy};
ghost use Rattle.trace_script.specs.Engine.{IsText};

use path_guard::Answer;
use std::alloc::{AllocError, Global};
use trace_script::{Stop, answer_line, joined};

/// The answer to an open, as a line. `name` is the one that was judged.
pub(crate) fn open_line(alloc: Global, answer: &Answer, name: &[u8]) -> Result<Vec<u8>, Stop>
    requires { IsNotBusy answer.now }
    ensures { IsText (told_text name.now answer.now) result }
{
    let told = match *answer {
        Answer::Judged {
            verdict,
            node,
            tree_version,
            policy_version,
        } => mediation::Answer::Judged {
            verdict,
            node,
            tree_version,
            policy_version,
        },
        Answer::Failed {
            errno,
            tree_version,
        } => mediation::Answer::Failed {
            errno,
            tree_version,
        },
        Answer::NoProfile { policy_version } => mediation::Answer::NoProfile { policy_version },
        // A guard is never busy.
        Answer::Busy { .. } => unreachable!(),
        Answer::NoEntry => return Ok(joined(alloc, "no entry", b"", "\n")?),
    };
    answer_line(alloc, &told, name)
}

/// An answer after the number of its request.
pub(crate) fn numbered(alloc: Global, number: u64, answer: &[u8]) -> Result<Vec<u8>, AllocError>
    ensures { IfOk result (λ line. line.items ≡ decimal number ++ codes ": " ++ answer.now) }
{
    let start = format!(in alloc; "{number}: ")?;
    joined(alloc, &start, answer, "")
}
