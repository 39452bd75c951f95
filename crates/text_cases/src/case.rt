//! Cases, and what is said of each.
use crate::canonical::{show_canonical, show_rules};
use crate::compiled::show_records;
use crate::flattened::show_parts;
use crate::items::show_items;
use crate::judgment::{show_allowed, show_verdicts};
use crate::lines::show_lines;
use crate::profiles::show_profile;
use crate::subjects::show_effects;
use crate::variables::show_substituted;
use std::alloc::Global;
use std::io;
use std::io::Write;
use test_parts::{Case, bytes_of};

/// Shows each case.
pub(crate) fn show_all<W: Write>(alloc: Global, cases: &str, output: &mut W) -> io::Result<()> {
    let cases = cases.strip_suffix('\n').unwrap_or(cases);
    for case in cases.split("\n=== ").skip(1) {
        writeln!(output, "=== {case}\n---")?;
        show(alloc, &Case::read(alloc, case)?, output)?;
        writeln!(output)?;
    }
    output.flush()
}

fn show<W: Write>(alloc: Global, case: &Case<'_>, output: &mut W) -> io::Result<()> {
    match case.view {
        "substituted" => show_substituted(alloc, case, output),
        "effects" => show_effects(case, output),
        _ => show_whole(alloc, case, &bytes_of(alloc, case.text)?, output),
    }
}

/// Shows what is said of the whole text, or of each line of it.
fn show_whole<W: Write>(
    alloc: Global,
    case: &Case<'_>,
    text: &[u8],
    output: &mut W,
) -> io::Result<()> {
    match case.view {
        "profile" => show_profile(alloc, text, output),
        "items" => show_items(alloc, text, output),
        "canonical" => show_canonical(alloc, text, output),
        "rules" => show_rules(alloc, text, output),
        "verdicts" => show_verdicts(alloc, text, &case.options, output),
        "allowed" => show_allowed(alloc, text, &case.options, output),
        "records" => show_records(alloc, text, &case.options, output),
        "parts" => show_parts(alloc, text, output),
        _ => show_lines(alloc, case, output),
    }
}
