//! What is asked of an import.
ghost use Rattle.std.specs.Prelude.{◌≡◌, IfOk, IfErr, is_some, Some, true, option_map};
ghost use Rattle.clap.specs.Words.{found_of, rows_of};
ghost use Rattle.trace_arguments.specs.Choices.{account_of};
ghost use Rattle.trace_arguments.specs.CommandLine.{import_command};
ghost use Rattle.trace_arguments.specs.Values.{import_value};
ghost use Rattle.trace_arguments.specs.inner.Parser.{IsAsked, import_read};

use crate::choice::{ImportChoice, choice_in};
use crate::commands::IMPORT;
use crate::found::flag_in;
use crate::line::LineFault;
use crate::parser::text_fault;
use clap::ArgMatches;
use std::alloc::Global;

/// Of which rules an import gives an account.
#[derive(Clone, Copy, Debug, PartialEq, Eq)]
pub enum Account {
    /// Of those whose effect the imported profile doesn't have exactly.
    Changes,
    /// Of all.
    All,
    /// Of none.
    Nothing,
}

/// What is asked of an import.
#[derive(Debug, Drop, PartialEq, Eq)]
pub struct ImportOptions<'a> {
    pub choice: ImportChoice<'a>,
    /// Whether each profile of the text is imported; then the choice names none, and there is no map.
    pub all: bool,
    /// Whether a profile that isn't exact for the chosen subject is refused.
    pub strict: bool,
    pub account: Account,
    /// The name of the file for the places that the rules come from.
    pub map: Option<&'a str>,
}

/// What is asked of an import, by what the parser found.
pub(crate) fn import_in<'a>(
    alloc: Global,
    found: &ArgMatches<'a>,
) -> Result<ImportOptions<'a>, LineFault>
    requires { IsAsked import_command (rows_of (found_of found.now)) }
    ensures ok { IfOk result (λ asked. import_read (found_of found.now) ≡ Some (import_value asked)) }
    ensures err { IfErr result (λ fault.
        is_some (import_read (found_of found.now)) ≡ true → fault ≡ LineFault.NoMemory) }
{
    let map = found.get_str("map");
    let all = flag_in(found, "all");
    let single = found.get_str("profile").is_some() || map.is_some();
    if all && single {
        return Err(text_fault(
            alloc,
            &IMPORT,
            "--all goes neither with --profile nor with --map",
        ));
    }
    let choice = choice_in(alloc, &IMPORT, found)?;
    let Some(account) = account_of(found.get_str("account")) else {
        return Err(text_fault(alloc, &IMPORT, "--account takes changes, all or none"));
    };
    Ok(ImportOptions {
        choice,
        all,
        strict: flag_in(found, "strict"),
        account,
        map,
    })
}

/// Of which rules an account is given, by the text of `--account`.
fn account_of(text: Option<&str>) -> Option<Account>
    ensures { result ≡ account_of (option_map (λ text. text.now) text.entry) }
{
    match text {
        None | Some("changes") => Some(Account::Changes),
        Some("all") => Some(Account::All),
        Some("none") => Some(Account::Nothing),
        _ => None,
    }
}
