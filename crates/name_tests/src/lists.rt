//! Lists of names: what is written of them, worked out by hand, and compared with verdicts rule by rule.
use crate::streams::{Question, expect, select};
use names::Perms;
use rule_judge::judge_slow;
use rule_profile::Profile;
use rule_reader::read;
use std::alloc::Global;
use std::test::Fail;
use trace_names::NamesChoice;
use trace_report::Status;

const WEB: &[u8] = b"profile web {\n  /srv/** rw,\n  /etc/* r,\n  deny /srv/*/secret r,\n}\n";

// The last name lacks its end, one is empty, and one has no slash at its front.
const NAMES: &[u8] = b"/srv/a\n/etc/a\n\nsrv/a\n/srv/b/secret\n/srv/b/c";

// The options, and what is written of these names.
const ROWS: [(bool, bool, &str); 4] = [
    (false, false, "/srv/a\n/srv/b/c\n"),
    (true, false, "/etc/a\n\nsrv/a\n/srv/b/secret\n"),
    (
        false,
        true,
        concat!(
            "/srv/a: allowed\n/etc/a: no rule for w\n: no rule for rw\nsrv/a: no rule for rw\n",
            "/srv/b/secret: denied by rule 3\n/srv/b/c: allowed\n"
        ),
    ),
    (
        true,
        true,
        concat!(
            "/etc/a: no rule for w\n: no rule for rw\nsrv/a: no rule for rw\n",
            "/srv/b/secret: denied by rule 3\n"
        ),
    ),
];

#[test]
fn names_are_selected(rt: HostRuntime) {
    for (not_allowed, verdicts, text) in ROWS {
        let question = Question {
            choice: NamesChoice::of_options(not_allowed, verdicts, false),
            perms: "rw",
            profile: WEB,
            list: NAMES,
        };
        let ending = select(rt.alloc(), question);
        expect(&rt, &ending, Status::Done, text.as_bytes(), b"");
    }
}

// Names that are ended by the byte 0 may have line feeds.
#[test]
fn names_are_ended_by_null(rt: HostRuntime) {
    let question = Question {
        choice: NamesChoice::of_options(false, false, true),
        perms: "w",
        profile: WEB,
        list: b"/srv/a\nb\0/etc/a\0/srv/c\0",
    };
    let ending = select(rt.alloc(), question);
    expect(&rt, &ending, Status::Done, b"/srv/a\nb\0/srv/c\0", b"");
}

#[test]
fn faults_are_reported(rt: HostRuntime) {
    let rows: [(&str, &[u8], Status, &[u8]); 3] = [
        ("", WEB, Status::BadArguments, b"bad permissions\n"),
        (
            "rx",
            b"profile p {\n",
            Status::BadArguments,
            b"bad permissions\n",
        ),
        (
            "r",
            b"profile p {\n",
            Status::Refused,
            b"refused: read 1 at 12\n",
        ),
    ];
    for (letters, profile, status, told) in rows {
        let question = Question {
            choice: NamesChoice::of_options(true, true, false),
            perms: letters,
            profile,
            list: NAMES,
        };
        let ending = select(rt.alloc(), question);
        expect(&rt, &ending, status, b"", told);
    }
}

// What names are made of: three of these one after another.
const PIECES: [&str; 8] = ["", "/", "/srv", "/etc", "/secret", "/a", "srv/", "b"];

// A list of all such names, and what is written of it with verdicts, rule by rule.
fn list_and_verdicts(
    alloc: Global,
    profile: &Profile,
    ask: Perms,
) -> Result<(Vec<u8>, Vec<u8>), Fail> {
    let mut list = Vec::new(alloc);
    let mut told = Vec::new(alloc);
    for number in 0..512 {
        let name = format!(in alloc;
            "{}{}{}",
            PIECES[number / 64],
            PIECES[number / 8 % 8],
            PIECES[number % 8]
        )?;
        let verdict = judge_slow(profile, name.as_bytes(), ask);
        let line = format!(in alloc; "{name}\n")?;
        list.extend_from_slice(line.as_bytes())?;
        let line = format!(in alloc; "{name}: {verdict}\n")?;
        told.extend_from_slice(line.as_bytes())?;
    }
    Ok((list, told))
}

#[test]
fn names_are_judged_as_by_rules(rt: HostRuntime) -> Result<(), Fail> {
    let profile = read(rt.alloc(), WEB).ok().ok_or("a profile")?;
    let ask = Perms::from_letters(b"rw").ok_or("letters")?;
    let (list, told) = list_and_verdicts(rt.alloc(), &profile, ask)?;
    let question = Question {
        choice: NamesChoice::of_options(false, true, false),
        perms: "rw",
        profile: WEB,
        list: &list,
    };
    let ending = select(rt.alloc(), question);
    expect(&rt, &ending, Status::Done, &told, b"");
    Ok(())
}
