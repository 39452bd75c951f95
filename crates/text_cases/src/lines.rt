//! Texts of one line.
use crate::compiled::{tell_agreement, tell_states};
use crate::flattened::{tell_fitting, tell_letters, tell_stop};
use crate::leads::{tell_alike, tell_choices, tell_led, tell_path_text};
use crate::named::{tell_components, tell_path, tell_profile_name};
use crate::profiles::show_profile;
use crate::variables::tell_slashes;
use std::alloc::Global;
use std::io;
use std::io::Write;
use test_parts::{Case, bytes_of};

/// Shows what is said of each line.
pub(crate) fn show_lines<W: Write>(
    alloc: Global,
    case: &Case<'_>,
    output: &mut W,
) -> io::Result<()> {
    for line in case.text.lines() {
        write!(output, "{line}: ")?;
        tell(alloc, case, &bytes_of(alloc, line)?, output)?;
    }
    Ok(())
}

fn tell<W: Write>(alloc: Global, case: &Case<'_>, line: &[u8], output: &mut W) -> io::Result<()> {
    match case.view {
        "profiles" => show_profile(alloc, line, output),
        "states" => tell_states(alloc, line, output),
        "agreement" => tell_agreement(alloc, line, first_option(case), output),
        "stops" => tell_stop(alloc, line, output),
        "letters" => tell_letters(line, output),
        "fitting letters" => tell_fitting(line, output),
        "leads" => tell_led(alloc, line, output),
        "path texts" => tell_path_text(alloc, line, output),
        "choices" => tell_choices(alloc, line, output),
        "readings alike" => tell_alike(line, output),
        "profile names" => tell_profile_name(alloc, line, output),
        "paths" => tell_path(line, output),
        "components" => tell_components(line, output),
        "slashes" => tell_slashes(alloc, line, output),
        _ => writeln!(output, "no view"),
    }
}

fn first_option<'a>(case: &Case<'a>) -> &'a str {
    match case.options.first() {
        Some(option) => option,
        None => "",
    }
}
