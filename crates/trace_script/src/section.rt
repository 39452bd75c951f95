//! The state of reading between two lines.
ghost use Rattle.std.specs.Prelude.{◌≡◌, ◌++◌, ◌∷◌, [], IfOk};
ghost use Rattle.trace_script.specs.Engine.{section_value, IsClosed};
ghost use Rattle.trace_script.specs.Script.{line_feed};

use crate::stop::Stop;
use std::alloc::AllocError;

/// The state of reading between two lines.
#[derive(Drop)]
pub enum Section {
    /// The next line is a command, if it says anything.
    Outside,
    /// The next line is one of a policy's, or ends it. The line `start` opened the policy, whose text so far is `text`.
    Within { start: u64, text: Vec<u8> },
}

/// The text with one more line.
pub(crate) fn with_line(text: Vec<u8>, line: &[u8]) -> Result<Vec<u8>, AllocError>
    ensures { IfOk result (λ longer. longer.items ≡ text.items ++ line.now ++ line_feed ∷ []) }
{
    let mut longer = text;
    longer.extend_from_slice(line)?;
    longer.push(b'\n')?;
    Ok(longer)
}

impl Section {
    /// Whether a script may end here: not within a policy.
    pub fn close(&self) -> Result<(), Stop>
        ensures { IsClosed (section_value self.now) result }
    {
        match self {
            Section::Outside => Ok(()),
            Section::Within { start, .. } => Err(Stop::NoCommand(*start)),
        }
    }
}
