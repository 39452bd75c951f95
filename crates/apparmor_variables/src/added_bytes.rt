//! Bytes added to a text that may not become too long.
ghost use Rattle.std.specs.Prelude.{◌≡◌, ◌∷◌, ℕ, List};
ghost use Rattle.apparmor_variables.specs.PathTexts.{without_leading_slashes, without_trailing_slashes, alternative, alternatives};
ghost use Rattle.apparmor_variables.specs.PathTexts.{in_place};
ghost use Rattle.apparmor_variables.specs.inner.AddedBytes.{Adds};

use crate::refusal::Refusal;
use crate::sink::Sink;
use crate::texts::Texts;

/// Adds the texts of a list in place of a use. The flags say whether a slash is directly before it, and directly after it.
pub(crate) fn add_list<S: Sink>(
    sink: &mut S,
    list: &Texts,
    slash_before: bool,
    slash_behind: bool,
) -> Result<(), Refusal>
    ensures { (text : List ℕ) → S.Holds sink.old text → Adds result (S.Holds sink.new) text
        (in_place slash_before slash_behind list.now) }
{
    if list.len() == 1 {
        return sink.add(list.text(0));
    }
    sink.add(b"{")?;
    add_alternatives(sink, list, slash_before, slash_behind)?;
    sink.add(b"}")
}

/// Adds the texts of a group.
fn add_alternatives<S: Sink>(
    sink: &mut S,
    list: &Texts,
    slash_before: bool,
    slash_behind: bool,
) -> Result<(), Refusal>
    ensures { (text : List ℕ) → S.Holds sink.old text → Adds result (S.Holds sink.new) text
        (alternatives slash_before slash_behind list.now) }
{
    if list.len() == 0 {
        return Ok(());
    }
    sink.add(alternative(slash_before, slash_behind, list.text(0)))?;
    for place in 1..list.len() {
        add_further(
            sink,
            alternative(slash_before, slash_behind, list.text(place)),
        )?;
    }
    Ok(())
}

/// Adds a further text of a group.
fn add_further<S: Sink>(sink: &mut S, more: &[u8]) -> Result<(), Refusal>
    ensures { (text : List ℕ) → S.Holds sink.old text → Adds result (S.Holds sink.new) text (44 ∷ more.now) }
{
    sink.add(b",")?;
    sink.add(more)
}

/// Returns a text of a group without its slashes that are next to slashes already there.
fn alternative(slash_before: bool, slash_behind: bool, text: &[u8]) -> &[u8]
    ensures { result.now ≡ alternative slash_before slash_behind text.now }
{
    let end = if slash_before {
        without_leading_slashes(text)
    } else {
        text
    };
    if slash_behind {
        without_trailing_slashes(end)
    } else {
        end
    }
}

fn without_leading_slashes(text: &[u8]) -> &[u8]
    ensures { result.now ≡ without_leading_slashes text.now }
{
    let mut rest = text;
    while let [b'/', more @ ..] = rest {
        rest = more;
    }
    rest
}

fn without_trailing_slashes(text: &[u8]) -> &[u8]
    ensures { result.now ≡ without_trailing_slashes text.now }
{
    let mut rest = text;
    while let [more @ .., b'/'] = rest {
        rest = more;
    }
    rest
}
