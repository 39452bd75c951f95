//! Where the bytes of a path's text go: into the text itself, or only into a count.
ghost use Rattle.std.specs.Prelude.{◌≡◌, ◌≤◌, ℕ, List, [], length};
ghost use Rattle.names.specs.Paths.{ends_with_slash};
ghost use Rattle.apparmor_variables.specs.Variables.{most_bytes};
ghost use Rattle.apparmor_variables.specs.inner.AddedBytes.{Adds};

use crate::counts::sum;
use crate::refusal::Refusal;
use crate::texts::MOST_BYTES;

/// What the bytes of a text are added to. The text may not become too long.
pub(crate) trait Sink {
    // The bytes that were added are together this text.
    ghost Holds: { Self → List ℕ → Type 0 };

    /// Adds these bytes, unless the text would be too long.
    fn add(&mut self, more: &[u8]) -> Result<(), Refusal>
        ensures { (text : List ℕ) → Holds self.old text → Adds result (Holds self.new) text more.now };

    /// Whether the text so far ends with a slash.
    fn ends_with_slash(&self) -> bool
        ensures { (text : List ℕ) → Holds self.now text → result ≡ ends_with_slash text };

    // It isn't too long.
    ghost short: { (sink : Self) (text : List ℕ) → Holds sink text → length text ≤ most_bytes };
}

impl Sink for Vec<u8> {
    ghost Holds = { λ bytes text. (text ≡ bytes.items) × (length text ≤ most_bytes) };

    ghost short = { λ bytes text holds. holds.1 };

    fn add(&mut self, more: &[u8]) -> Result<(), Refusal> {
        if sum(self.len(), more.len(), MOST_BYTES).is_none() {
            return Err(Refusal::Nothing);
        }
        self.extend_from_slice(more)?;
        Ok(())
    }

    fn ends_with_slash(&self) -> bool {
        ends_with_slash(self)
    }
}

/// What is known of a text that isn't made.
#[derive(Drop)]
pub(crate) struct Measure {
    length: usize,
    ends_with_slash: bool,
}

impl Measure {
    /// That of the empty text.
    pub(crate) fn empty() -> Measure
        ensures length { result.length ≡ 0 }
        ensures end { result.ends_with_slash ≡ ends_with_slash [] }
    {
        Measure {
            length: 0,
            ends_with_slash: false,
        }
    }

    /// Returns the length of the text.
    pub(crate) fn length(&self) -> usize
        ensures { result ≡ self.now.length }
    {
        self.length
    }
}

impl Sink for Measure {
    ghost Holds = { λ measure text. (measure.length ≡ length text) × (measure.ends_with_slash ≡ ends_with_slash text)
        × (length text ≤ most_bytes) };

    ghost short = { λ measure text holds. holds.2 };

    fn add(&mut self, more: &[u8]) -> Result<(), Refusal> {
        let Some(length) = sum(self.length, more.len(), MOST_BYTES) else {
            return Err(Refusal::Nothing);
        };
        self.length = length;
        if !more.is_empty() {
            self.ends_with_slash = ends_with_slash(more);
        }
        Ok(())
    }

    fn ends_with_slash(&self) -> bool {
        self.ends_with_slash
    }
}

/// Whether the text ends with a slash.
fn ends_with_slash(text: &[u8]) -> bool
    ensures { result ≡ ends_with_slash text.now }
{
    match text {
        [.., byte] => *byte == b'/',
        [] => false,
    }
}
