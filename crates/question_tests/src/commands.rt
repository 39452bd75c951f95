//! Questions as commands, over streams in memory.
use std::alloc::Global;
use std::process::Abort;
use std::test::Fail;
use trace_questions::{Quantifier, Report, Witnesses, differ, search};
use trace_report::{Format, Status};

/// What a command wrote, and its status.
#[derive(Drop)]
pub(crate) struct Ending {
    pub(crate) status: Status,
    pub(crate) answers: Vec<u8>,
    pub(crate) faults: Vec<u8>,
}

// What is asked of a profile's text.
#[derive(Clone, Copy)]
pub(crate) struct Row<'a> {
    pub(crate) quantifier: Quantifier,
    pub(crate) perms: &'a str,
    pub(crate) pattern: &'a str,
    pub(crate) profile: &'a [u8],
}

pub(crate) fn search_in_memory(alloc: Global, row: Row<'_>) -> Ending {
    let mut input = row.profile;
    let mut answers = Vec::new(alloc);
    let mut faults = Vec::new(alloc);
    let status = search(
        alloc,
        Format::Text,
        row.quantifier,
        row.perms,
        row.pattern,
        &mut input,
        &mut answers,
        &mut faults,
    );
    Ending {
        status,
        answers,
        faults,
    }
}

/// Expects that just this was written: as an answer, or as a fault.
pub(crate) fn expect(rt: &impl Abort, ending: &Ending, status: Status, text: &[u8]) {
    assert!(rt; ending.status == status);
    let answered = matches!(status, Status::Done | Status::Unmet);
    let (written, empty) = if answered {
        (ending.answers.as_slice(), ending.faults.as_slice())
    } else {
        (ending.faults.as_slice(), ending.answers.as_slice())
    };
    assert!(rt; written == text);
    assert!(rt; empty.is_empty());
}

const WEB: &[u8] = b"profile web {\n  /srv/** r,\n  /srv/log/* w,\n  deny /srv/log/*.old w,\n}\n";

#[test]
fn some_name(rt: HostRuntime) {
    let any = Quantifier::Any(Witnesses::Least);
    let rows: [(&str, &str, Status, &[u8]); 6] = [
        (
            "w",
            "/srv/**",
            Status::Unmet,
            b"any /srv/log/a\nw: allowed by rule 2, line 3: \"/srv/log/*\" w,\n",
        ),
        (
            "rw",
            "/srv/log/*.{new,old}",
            Status::Unmet,
            b"any /srv/log/.new\nr: allowed by rule 1, line 2: \"/srv/**\" r,\nw: allowed by rule 2, line 3: \"/srv/log/*\" w,\n",
        ),
        ("w", "/etc/**", Status::Done, b"none\n"),
        ("w", "/srv/log/*.old", Status::Done, b"none\n"),
        ("x", "/srv/**", Status::BadArguments, b"bad permissions\n"),
        ("w", "srv/**", Status::BadArguments, b"bad pattern\n"),
    ];
    for (perms, pattern, status, text) in rows {
        let row = Row {
            quantifier: any,
            perms,
            pattern,
            profile: WEB,
        };
        expect(&rt, &search_in_memory(rt.alloc(), row), status, text);
    }
}

#[test]
fn each_name(rt: HostRuntime) {
    let all = Quantifier::All;
    let rows: [(&str, &str, Status, &[u8]); 4] = [
        ("r", "/srv/**", Status::Done, b"all\n"),
        (
            "w",
            "/srv/log/*",
            Status::Unmet,
            b"not /srv/log/.old\nw: denied by rule 3, line 4: deny \"/srv/log/*.old\" w,\n",
        ),
        ("r", "/*", Status::Unmet, b"not /a\nr: no rule\n"),
        ("r", "", Status::BadArguments, b"bad pattern\n"),
    ];
    for (perms, pattern, status, text) in rows {
        let row = Row {
            quantifier: all,
            perms,
            pattern,
            profile: WEB,
        };
        expect(&rt, &search_in_memory(rt.alloc(), row), status, text);
    }
}

const LOGS: &[u8] = b"profile p {\n  /a/* r,\n  /a/b* rw,\n  /a/{b,c}c w,\n  deny /a/b w,\n}\n";

// A name for each rule that is the first to allow something: `/a/ba` is the least by rules 1 and 2, and `/a/bc` by none.
#[test]
fn some_name_by_each_rule(rt: HostRuntime) {
    let rows: [(&str, &str, Status, &[u8]); 5] = [
        (
            "w",
            "/a/**",
            Status::Unmet,
            b"any /a/ba
w: allowed by rule 2, line 3: \"/a/b*\" rw,
any /a/cc
w: allowed by rule 3, line 4: \"/a/{b,c}c\" w,
",
        ),
        (
            "rw",
            "/a/**",
            Status::Unmet,
            b"any /a/ba
r: allowed by rule 1, line 2: \"/a/*\" r,
w: allowed by rule 2, line 3: \"/a/b*\" rw,
any /a/cc
r: allowed by rule 1, line 2: \"/a/*\" r,
w: allowed by rule 3, line 4: \"/a/{b,c}c\" w,
",
        ),
        (
            "w",
            "/a/*c",
            Status::Unmet,
            b"any /a/bc
w: allowed by rule 2, line 3: \"/a/b*\" rw,
any /a/cc
w: allowed by rule 3, line 4: \"/a/{b,c}c\" w,
",
        ),
        ("w", "/a/b", Status::Done, b"none\n"),
        ("w", "a", Status::BadArguments, b"bad pattern\n"),
    ];
    for (perms, pattern, status, text) in rows {
        let row = Row {
            quantifier: Quantifier::Any(Witnesses::EachRule),
            perms,
            pattern,
            profile: LOGS,
        };
        expect(&rt, &search_in_memory(rt.alloc(), row), status, text);
    }
}

// What is no profile, a byte that is shown by its number, and a class that takes no byte that a name has.
#[test]
fn odd_texts(rt: HostRuntime) {
    let any = Quantifier::Any(Witnesses::Least);
    let rows: [(&str, &[u8], Status, &[u8]); 3] = [
        (
            "/**",
            b"profile p {\n",
            Status::Refused,
            b"refused: read 1 at 12\n",
        ),
        (
            "/[\x01\\\\]*",
            b"profile p {\n  /** r,\n}\n",
            Status::Unmet,
            b"any /\\001\nr: allowed by rule 1, line 2: \"/**\" r,\n",
        ),
        (
            "/[^\x01-/0-\x7f]x\x02",
            b"profile p {\n  /** r,\n}\n",
            Status::Unmet,
            b"any /\x80x\\002\nr: allowed by rule 1, line 2: \"/**\" r,\n",
        ),
    ];
    for (pattern, profile, status, text) in rows {
        let row = Row {
            quantifier: any,
            perms: "r",
            pattern,
            profile,
        };
        expect(&rt, &search_in_memory(rt.alloc(), row), status, text);
    }
}

pub(crate) fn differ_in_memory(
    alloc: Global,
    below: Option<&str>,
    witnesses: Witnesses,
    old: &[u8],
    new: &[u8],
) -> Ending {
    let mut before = old;
    let mut after = new;
    let mut answers = Vec::new(alloc);
    let mut faults = Vec::new(alloc);
    let report = Report {
        witnesses,
        format: Format::Text,
    };
    let status = differ(
        alloc,
        below,
        report,
        &mut before,
        &mut after,
        &mut answers,
        &mut faults,
    );
    Ending {
        status,
        answers,
        faults,
    }
}

const OLD: &[u8] = b"profile p {\n  /etc/* r,\n  /srv/** rw,\n}\n";

const NEW: &[u8] = b"profile p {\n  /etc/* r,\n  /srv/** r,\n  deny /srv/a r,\n  /etc/** w,\n}\n";

// Each permission in each direction: who may write may append.
#[test]
fn two_profiles(rt: HostRuntime) {
    let lines: &[u8] =
        b"- r /srv/a: denied by rule 3, line 4: deny \"/srv/a\" r,; was: allowed by rule 2, line 3: \"/srv/**\" rw,
+ w /etc/a: allowed by rule 4, line 5: \"/etc/**\" w,; was: no rule
- w /srv/a: no rule; was: allowed by rule 2, line 3: \"/srv/**\" rw,
+ a /etc/a: allowed by rule 4, line 5: \"/etc/**\" w,; was: no rule
- a /srv/a: no rule; was: allowed by rule 2, line 3: \"/srv/**\" rw,
";
    let ending = differ_in_memory(rt.alloc(), None, Witnesses::Least, OLD, NEW);
    expect(&rt, &ending, Status::Unmet, lines);
    let below: &[u8] = b"+ w /etc/b: allowed by rule 4, line 5: \"/etc/**\" w,; was: no rule
+ a /etc/b: allowed by rule 4, line 5: \"/etc/**\" w,; was: no rule
";
    let ending = differ_in_memory(rt.alloc(), Some("/etc/[b-z]*"), Witnesses::Least, OLD, NEW);
    expect(&rt, &ending, Status::Unmet, below);
}

const FEW: &[u8] = b"profile p {\n  /d/a* r,\n  /d/* r,\n}\n";

const LESS: &[u8] = b"profile p {\n  deny /d/*b r,\n  /d/[b-d]* r,\n}\n";

// A name for each pair of reasons.
#[test]
fn two_profiles_by_each_rule(rt: HostRuntime) {
    let lines: &[u8] = b"- r /d/a: no rule; was: allowed by rule 1, line 2: \"/d/a*\" r,
- r /d/b: denied by rule 1, line 2: deny \"/d/*b\" r,; was: allowed by rule 2, line 3: \"/d/*\" r,
- r /d/e: no rule; was: allowed by rule 2, line 3: \"/d/*\" r,
- r /d/ab: denied by rule 1, line 2: deny \"/d/*b\" r,; was: allowed by rule 1, line 2: \"/d/a*\" r,
";
    let back: &[u8] = b"+ r /d/a: allowed by rule 1, line 2: \"/d/a*\" r,; was: no rule
+ r /d/b: allowed by rule 2, line 3: \"/d/*\" r,; was: denied by rule 1, line 2: deny \"/d/*b\" r,
+ r /d/e: allowed by rule 2, line 3: \"/d/*\" r,; was: no rule
+ r /d/ab: allowed by rule 1, line 2: \"/d/a*\" r,; was: denied by rule 1, line 2: deny \"/d/*b\" r,
";
    let below: &[u8] =
        b"- r /d/ab: denied by rule 1, line 2: deny \"/d/*b\" r,; was: allowed by rule 1, line 2: \"/d/a*\" r,
- r /d/bb: denied by rule 1, line 2: deny \"/d/*b\" r,; was: allowed by rule 2, line 3: \"/d/*\" r,
";
    let rows: [(Option<&str>, &[u8], &[u8], Status, &[u8]); 4] = [
        (None, FEW, LESS, Status::Unmet, lines),
        (None, LESS, FEW, Status::Unmet, back),
        (Some("/d/?b"), FEW, LESS, Status::Unmet, below),
        (None, FEW, FEW, Status::Done, b"same\n"),
    ];
    for (below, old, new, status, text) in rows {
        expect(
            &rt,
            &differ_in_memory(rt.alloc(), below, Witnesses::EachRule, old, new),
            status,
            text,
        );
    }
}

// Each permission in each direction, where there is one pair of reasons for each.
#[test]
fn two_profiles_by_one_pair_each(rt: HostRuntime) {
    let least = differ_in_memory(rt.alloc(), None, Witnesses::Least, OLD, NEW);
    let each = differ_in_memory(rt.alloc(), None, Witnesses::EachRule, OLD, NEW);
    assert!(rt; each.status == Status::Unmet);
    assert!(rt; each.answers.as_slice() == least.answers.as_slice());
}

#[test]
fn profiles_that_are_not_compared(rt: HostRuntime) {
    let rows: [(Option<&str>, &[u8], &[u8], Status, &[u8]); 5] = [
        (None, OLD, OLD, Status::Done, b"same\n"),
        (Some("/usr/**"), OLD, NEW, Status::Done, b"same\n"),
        (
            Some("usr"),
            OLD,
            NEW,
            Status::BadArguments,
            b"bad pattern\n",
        ),
        (
            None,
            b"profile p {\n",
            NEW,
            Status::Refused,
            b"refused: read 1 at 12 in OLD\n",
        ),
        (
            None,
            OLD,
            b"profile p {\n",
            Status::Refused,
            b"refused: read 1 at 12 in NEW\n",
        ),
    ];
    for (below, old, new, status, text) in rows {
        expect(
            &rt,
            &differ_in_memory(rt.alloc(), below, Witnesses::Least, old, new),
            status,
            text,
        );
    }
}
