//! Assignments to variables that are declared before, or added to before they are declared.
ghost use Rattle.std.specs.Prelude.{◌≡◌, ◌<◌, ◌+◌, ◌^◌, ℕ, List, Option, IfOk, drop, length, option_map, string_bytes};
ghost use Rattle.apparmor_text.specs.Parts.{ItemValue, bytes_of_items};
ghost use Rattle.apparmor_text.specs.Texts.{ReadsItems};
ghost use Rattle.apparmor_words.specs.Steps.{Stop};
ghost use Rattle.fault_notes.specs.VariableNotes.{assigns, declared_said, first_assigned, in_text_said, is_given, is_variable};
ghost use Rattle.fault_notes.specs.VariableNotes.{undeclared, variable_name, variable_said, variable_word};
ghost use Rattle.rule_explain.specs.FaultWords.{named};

use crate::sentence::word_said;
use apparmor_text::{Item, Part, PartKind, items_are_the_text, read_items, texts_have_one_outcome};
use import_profile::ImportOptions;
use names::NoMemory;
use rule_explain::{named, place_at};
use std::alloc::Global;

/// What is said about the variable that is assigned to at a place.
pub(crate) fn declared_said(
    alloc: Global,
    options: ImportOptions<'_>,
    text: &[u8],
    place: usize,
) -> Result<String, NoMemory>
    ensures { (items : List ItemValue) (end : Option Stop) → ReadsItems text.now items end
        → IfOk result (λ said. string_bytes said ≡ declared_said options.entry text.now items place) }
{
    items_are_the_text();
    texts_have_one_outcome();
    let read = read_items(alloc, text)?;
    said_of_items(alloc, options, text, &read.items, place)
}

/// The same for a text that has these items.
fn said_of_items(
    alloc: Global,
    options: ImportOptions<'_>,
    text: &[u8],
    items: &[Item<'_>],
    place: usize,
) -> Result<String, NoMemory>
    requires { length (bytes_of_items items.now) < 2 ^ 64 }
    ensures { IfOk result (λ said. string_bytes said ≡ declared_said options.entry text.now items.now place) }
{
    let (_, from) = text.split_at(place.min(text.len()));
    let word = variable_word(from);
    let first = first_assigned(items, word);
    variable_said(alloc, options, text, word, place, first)
}

/// A variable as it is written at the front of a text.
fn variable_word(from: &[u8]) -> &[u8]
    ensures { result.now ≡ variable_word from.now }
{
    match from.iter().position(|byte| *byte == b'}') {
        Some(end) => &from[..end + 1],
        None => from,
    }
}

/// How many bytes come before the first item that assigns to a variable.
fn first_assigned(items: &[Item<'_>], word: &[u8]) -> Option<usize>
    requires { length (bytes_of_items items.now) < 2 ^ 64 }
    ensures { result ≡ first_assigned 0 items.now word.now }
{
    let mut before = 0;
    for item in items {
        if assigns(item, word) {
            return Some(before);
        }
        before += item.text().len();
    }
    None
}

/// Whether an item assigns to the variable that is written like this.
fn assigns(item: &Item<'_>, word: &[u8]) -> bool
    ensures { result ≡ assigns item.now word.now }
{
    item.parts().iter().any(|part| is_variable(part, word))
}

/// Whether a part is the variable that is assigned to, and is written like this.
fn is_variable(part: &Part<'_>, word: &[u8]) -> bool
    ensures { result ≡ is_variable word.now part.now }
{
    matches!(part.kind(), PartKind::Variable) && part.bytes() == word
}

/// What is between `@{` and `}`.
fn variable_name(word: &[u8]) -> &[u8]
    ensures { result.now ≡ variable_name word.now }
{
    match word {
        [_, _, rest @ ..] => rest.split_at(word.len().saturating_sub(3)).0,
        _ => &[],
    }
}

/// Whether a value of the variable with this name is given.
fn is_given(options: ImportOptions<'_>, name: &[u8]) -> bool
    ensures { result ≡ is_given options.entry name.now }
{
    options.defines.iter().any(|define| define.name == name)
}

/// What is said about a variable that is assigned to at a place, by what declares it.
fn variable_said(
    alloc: Global,
    options: ImportOptions<'_>,
    text: &[u8],
    word: &[u8],
    place: usize,
    first: Option<usize>,
) -> Result<String, NoMemory>
    ensures { IfOk result (λ said. string_bytes said ≡ variable_said options.entry text.now word.now place first) }
{
    let name = variable_name(word);
    if name == b"profile_name".as_slice() {
        let after = " is given by AppArmor: a text can't assign to it";
        word_said(alloc, "", word, after)
    } else if is_given(options, name) {
        let after = " is given by --define; --override lets that replace what the text says";
        word_said(alloc, "", word, after)
    } else {
        in_text_said(alloc, text, word, place, first)
    }
}

/// What is said about a variable that only the text declares, by where it is assigned to first.
fn in_text_said(
    alloc: Global,
    text: &[u8],
    word: &[u8],
    place: usize,
    first: Option<usize>,
) -> Result<String, NoMemory>
    ensures { IfOk result (λ said. string_bytes said ≡ in_text_said text.now word.now place first) }
{
    match first {
        Some(first) if first < place => {
            let name = named(alloc, word)?;
            let line = place_at(text, first).line;
            match format!(in alloc; "{name} is declared in line {line}") {
                Ok(said) => Ok(said),
                Err(_) => Err(NoMemory),
            }
        }
        _ => word_said(alloc, "", word, " isn't declared before it is added to"),
    }
}
