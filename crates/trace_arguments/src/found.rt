//! What the parser found of one option or argument.
ghost use Rattle.std.specs.Prelude.{◌≡◌, IfOk, is_some, Some, true, codes, map, option_map};
ghost use Rattle.clap.specs.Words.{first_value, found_of, rows_of};
ghost use Rattle.trace_arguments.specs.CommandLine.{format_by};
ghost use Rattle.trace_arguments.specs.inner.Parser.{flag_read, number_read, texts_found};

use clap::ArgMatches;
use std::alloc::{AllocError, Global};
use trace_report::Format;

/// The text of an argument that must be given.
pub(crate) fn text_in<'a>(found: &ArgMatches<'a>, name: &str) -> &'a str
    requires { is_some (first_value (found_of found.now) name.now) ≡ true }
    ensures { first_value (found_of found.now) name.now ≡ Some result.now }
{
    found.get_str(name).unwrap()
}

/// The texts of an argument that may be given any number of times, in the order of the words.
pub(crate) fn texts_in<'a>(
    alloc: Global,
    found: &ArgMatches<'a>,
    name: &str,
) -> Result<Vec<&'a str>, AllocError>
    ensures { IfOk result (λ texts. map (λ text. text.now) texts.items ≡ texts_found (found_of found.now) name.now) }
{
    let texts = found.get_strs(name).unwrap_or(&[]);
    texts.to_vec(alloc)
}

/// The number of an option.
pub(crate) fn number_in(found: &ArgMatches, name: &str) -> u32
    requires { is_some (number_read name.now (rows_of (found_of found.now))) ≡ true }
    ensures { number_read name.now (rows_of (found_of found.now)) ≡ Some result }
{
    found.get_one::<u32>(name).unwrap()
}

/// Whether an option is given that has no text.
pub(crate) fn flag_in(found: &ArgMatches, name: &str) -> bool
    requires { is_some (flag_read name.now (rows_of (found_of found.now))) ≡ true }
    ensures { flag_read name.now (rows_of (found_of found.now)) ≡ Some result }
{
    found.get_flag(name)
}

/// Whether a name is requested for each rule, or for each pair of reasons.
pub(crate) fn each_rule_in(found: &ArgMatches) -> bool
    requires { is_some (flag_read (codes "each-rule") (rows_of (found_of found.now))) ≡ true }
    ensures { flag_read (codes "each-rule") (rows_of (found_of found.now)) ≡ Some result }
{
    flag_in(found, "each-rule")
}

/// How the answer is written, by `--json`.
pub(crate) fn format_in(found: &ArgMatches) -> Format
    requires { is_some (flag_read (codes "json") (rows_of (found_of found.now))) ≡ true }
    ensures { option_map format_by (flag_read (codes "json") (rows_of (found_of found.now))) ≡ Some result }
{
    if flag_in(found, "json") {
        Format::Json
    } else {
        Format::Text
    }
}
