//! Profiles compiled to automata.
use crate::profiles::profile_of;
use glob_automaton::{Dfa, Record, compile, told};
use names::{Permission, Perms};
use rule_text::{Profile, judge_slow};
use std::alloc::Global;
use std::io;
use std::io::Write;
use test_parts::bytes_of;

/// Shows how many states the automaton has, or why there is none.
pub(crate) fn tell_states<W: Write>(alloc: Global, text: &[u8], output: &mut W) -> io::Result<()> {
    let Some(profile) = profile_of(alloc, text, output)? else {
        return Ok(());
    };
    match compile(alloc, &profile) {
        Ok(dfa) => writeln!(output, "{} states", dfa.states()),
        Err(fault) => writeln!(output, "{fault}"),
    }
}

/// Shows what the automaton holds of each name.
pub(crate) fn show_records<W: Write>(
    alloc: Global,
    text: &[u8],
    names: &[&str],
    output: &mut W,
) -> io::Result<()> {
    let Some(profile) = profile_of(alloc, text, output)? else {
        return Ok(());
    };
    match compile(alloc, &profile) {
        Ok(dfa) => show_records_of(alloc, &dfa, names, output),
        Err(fault) => writeln!(output, "{fault}"),
    }
}

fn show_records_of<W: Write>(
    alloc: Global,
    dfa: &Dfa,
    names: &[&str],
    output: &mut W,
) -> io::Result<()> {
    for name in names {
        write!(output, "{name}:")?;
        show_record(&dfa.record_after(&bytes_of(alloc, name)?), output)?;
    }
    Ok(())
}

fn show_record<W: Write>(record: &Record, output: &mut W) -> io::Result<()> {
    for permission in &Permission::ALL {
        let hits = record.of(*permission);
        write!(output, " {permission} {} {}", hits.allow, hits.deny)?;
    }
    writeln!(output)
}

/// Shows whether rules and automaton agree on each list of at most five bytes of four.
pub(crate) fn tell_agreement<W: Write>(
    alloc: Global,
    text: &[u8],
    alphabet: &str,
    output: &mut W,
) -> io::Result<()> {
    let Some(profile) = profile_of(alloc, text, output)? else {
        return Ok(());
    };
    match compile(alloc, &profile) {
        Ok(dfa) => tell_agreement_of(&profile, &dfa, &bytes_of(alloc, alphabet)?, output),
        Err(fault) => writeln!(output, "{fault}"),
    }
}

fn tell_agreement_of<W: Write>(
    profile: &Profile,
    dfa: &Dfa,
    alphabet: &[u8],
    output: &mut W,
) -> io::Result<()> {
    match alphabet {
        [a, b, c, d] => tell_difference(profile, dfa, [*a, *b, *c, *d], output),
        _ => writeln!(output, "not four bytes"),
    }
}

fn tell_difference<W: Write>(
    profile: &Profile,
    dfa: &Dfa,
    alphabet: [u8; 4],
    output: &mut W,
) -> io::Result<()> {
    let mut room = [0; 5];
    for number in 0..1365 {
        let name = counted(alphabet, number, &mut room);
        if differ(profile, &dfa.record_after(name), name) {
            output.write_all(name)?;
            return writeln!(output, ": rules and automaton differ");
        }
    }
    writeln!(output, "rules and automaton agree")
}

// The list of this number, where the lists of these four bytes are counted by their lengths, and those below 1,365 have
// at most five bytes.
fn counted(alphabet: [u8; 4], number: usize, room: &mut [u8; 5]) -> &[u8] {
    let mut left = number;
    for length in 0..5 {
        if left == 0 {
            return &room[..length];
        }
        room[length] = alphabet[(left - 1) % 4];
        left = (left - 1) / 4;
    }
    room
}

// Whether the record gives another verdict than the rules, for some set of permissions.
fn differ(profile: &Profile, record: &Record, name: &[u8]) -> bool {
    let read = Perms::NONE.with(Permission::Read);
    let write = Perms::NONE.with(Permission::Write);
    let both = read.with(Permission::Write);
    let all = both
        .with(Permission::Link)
        .with(Permission::Lock)
        .with(Permission::Map);
    for ask in &[read, write, both, all] {
        if told(record, *ask) != judge_slow(profile, name, *ask) {
            return true;
        }
    }
    false
}
