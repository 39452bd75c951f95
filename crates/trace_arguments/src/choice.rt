//! Which profile of a flattened text is asked about, and for whom.
ghost use Rattle.std.specs.Prelude.{◌≡◌, ◌&&◌, ◌==◌, not, IfOk, IfErr, is_some, Some, false, true, map, codes, option_map};
ghost use Rattle.std.specs.List.{list_all};
ghost use Rattle.clap.specs.Words.{found_of, rows_of};
ghost use Rattle.trace_arguments.specs.Choices.{begins_with_letter, choice_of, define_of, defines_of, ends_open, is_name_byte, is_value};
ghost use Rattle.trace_arguments.specs.Choices.{is_variable, owners_by, owners_for, owners_of};
ghost use Rattle.trace_arguments.specs.Values.{choice_value, define_value};
ghost use Rattle.trace_arguments.specs.inner.Parser.{choice_found, flag_read};

use crate::found::flag_in;
use crate::line::LineFault;
use crate::parser::text_fault;
use clap::ArgMatches;
use std::alloc::{AllocError, Global};
use trace_forms::CommandForm;

/// What becomes of rules for owners.
#[derive(Clone, Copy, Debug, PartialEq, Eq)]
pub enum OwnerRules {
    /// They are kept, as rules for everybody.
    Keep,
    /// They are left out.
    Drop,
}

/// A value of a variable, as a line before the text would give it.
#[derive(Clone, Copy, Debug, PartialEq, Eq)]
pub struct Define<'a> {
    /// A letter, and then letters, digits and `_`.
    pub variable: &'a str,
    /// Any text that doesn't end with a backslash that escapes nothing.
    pub value: &'a str,
}

/// Which profile of a flattened text is asked about, and for whom.
#[derive(Debug, Drop, PartialEq, Eq)]
pub struct ImportChoice<'a> {
    /// The profile's name, where the text has several.
    pub profile: Option<&'a str>,
    pub owners: OwnerRules,
    /// Values of variables, in the order of the words.
    pub defines: Vec<Define<'a>>,
    /// Whether these values replace all that the text says of their variables.
    pub overrides: bool,
}

/// The profile that is chosen, by what the parser found of a command.
pub(crate) fn choice_in<'a>(
    alloc: Global,
    form: &CommandForm,
    found: &ArgMatches<'a>,
) -> Result<ImportChoice<'a>, LineFault>
    requires { is_some (flag_read (codes "override") (rows_of (found_of found.now))) ≡ true }
    ensures ok { IfOk result (λ choice. choice_of (choice_found (found_of found.now)) ≡ Some (choice_value choice)) }
    ensures err { IfErr result (λ fault.
        is_some (choice_of (choice_found (found_of found.now))) ≡ true → fault ≡ LineFault.NoMemory) }
{
    let Some(owners) = owners_of(found.get_str("owner"), found.get_str("for")) else {
        return Err(text_fault(
            alloc,
            form,
            "--owner takes keep or drop, --for takes owner or others, and only one of them is given",
        ));
    };
    let texts = found.get_strs("define").unwrap_or(&[]);
    let Some(defines) = defines_of(alloc, texts)? else {
        return Err(text_fault(
            alloc,
            form,
            "--define takes VAR=VALUE, where VAR is a letter and then letters, digits and _, and not profile_name, \
             and no open backslash ends VALUE",
        ));
    };
    Ok(ImportChoice {
        profile: found.get_str("profile"),
        owners,
        defines,
        overrides: flag_in(found, "override"),
    })
}

/// What becomes of rules for owners by the texts of `--owner` and `--for`.
fn owners_of(owner: Option<&str>, subject: Option<&str>) -> Option<OwnerRules>
    ensures { result ≡ owners_of (option_map (λ text. text.now) owner.entry) (option_map (λ text. text.now) subject.entry) }
{
    match (owner, subject) {
        (None, None) => Some(OwnerRules::Keep),
        (Some(text), None) => owners_by(text),
        (None, Some(text)) => owners_for(text),
        (Some(_), Some(_)) => None,
    }
}

fn owners_by(text: &str) -> Option<OwnerRules>
    ensures { result ≡ owners_by text.now }
{
    match text {
        "keep" => Some(OwnerRules::Keep),
        "drop" => Some(OwnerRules::Drop),
        _ => None,
    }
}

fn owners_for(text: &str) -> Option<OwnerRules>
    ensures { result ≡ owners_for text.now }
{
    match text {
        "owner" => Some(OwnerRules::Keep),
        "others" => Some(OwnerRules::Drop),
        _ => None,
    }
}

/// Each of the texts as a variable with its value, or none if one of them isn't VAR=VALUE.
fn defines_of<'a>(alloc: Global, texts: &[&'a str]) -> Result<Option<Vec<Define<'a>>>, AllocError>
    ensures { IfOk result (λ defines.
        option_map (λ list. map define_value list.items) defines ≡ defines_of (map (λ text. text.now) texts.now)) }
{
    let mut defines = Vec::new(alloc);
    for text in texts {
        let Some(define) = define_of(*text) else {
            return Ok(None);
        };
        defines.push(define)?;
    }
    Ok(Some(defines))
}

/// The variable and the value of VAR=VALUE.
fn define_of<'a>(text: &'a str) -> Option<Define<'a>>
    ensures { option_map define_value result ≡ define_of text.now }
{
    let (variable, value) = text.split_once('=')?;
    if may_be_defined(variable, value) {
        Some(Define { variable, value })
    } else {
        None
    }
}

fn may_be_defined(variable: &str, value: &str) -> bool
    ensures { result ≡ (is_variable variable.now && is_value value.now) }
{
    is_variable(variable) && is_value(value)
}

/// Whether the text is a letter and then letters, digits and `_`, and not `profile_name`.
fn is_variable(text: &str) -> bool
    ensures { result ≡ is_variable text.now }
{
    let bytes = text.as_bytes();
    begins_with_letter(bytes) && are_name_bytes(bytes) && text != "profile_name"
}

/// Whether the text doesn't end with a backslash that would escape what follows the variable in a path.
fn is_value(text: &str) -> bool
    ensures { result ≡ is_value text.now }
{
    !ends_open(text.as_bytes())
}

/// Whether the last of the bytes is a backslash that isn't itself escaped.
fn ends_open(bytes: &[u8]) -> bool
    ensures { result ≡ ends_open false bytes.now }
{
    let mut escaped = false;
    for byte in bytes {
        escaped = escapes(escaped, *byte);
    }
    escaped
}

/// Whether the byte is a backslash that isn't escaped.
fn escapes(escaped: bool, byte: u8) -> bool
    ensures { result ≡ (not escaped && byte == 92) }
{
    !escaped && byte == b'\\'
}

fn begins_with_letter(bytes: &[u8]) -> bool
    ensures { result ≡ begins_with_letter bytes.now }
{
    match bytes {
        [first, ..] => first.is_ascii_alphabetic(),
        [] => false,
    }
}

fn are_name_bytes(bytes: &[u8]) -> bool
    ensures { result ≡ list_all is_name_byte bytes.now }
{
    bytes.iter().all(|byte| is_name_byte(*byte))
}

fn is_name_byte(byte: u8) -> bool
    ensures { result ≡ is_name_byte byte }
{
    byte.is_ascii_alphanumeric() || byte == b'_'
}
