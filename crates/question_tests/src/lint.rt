//! `lint` as a command, over streams in memory.
use crate::commands::{self, Ending};
use std::alloc::Global;
use std::process::Abort;
use trace_lint::lint;
use trace_report::{Format, Status};

// Whether just this is written about a profile with these rules: as an answer, or as a fault.
fn expect(rt: &impl Abort, alloc: Global, text: &[u8], status: Status, lines: &[u8]) {
    expect_in(rt, alloc, Format::Text, text, status, lines);
}

fn expect_in(
    rt: &impl Abort,
    alloc: Global,
    format: Format,
    text: &[u8],
    status: Status,
    lines: &[u8],
) {
    let mut input = text;
    let mut answers = Vec::new(alloc);
    let mut faults = Vec::new(alloc);
    let ended = lint(alloc, format, &mut input, &mut answers, &mut faults);
    let ending = Ending {
        status: ended,
        answers,
        faults,
    };
    commands::expect(rt, &ending, status, lines);
}

#[test]
fn nothing_to_report(rt: HostRuntime) {
    let texts: [&[u8]; 4] = [
        b"profile p {\n}\n",
        b"profile p {\n  /srv/** rw,\n}\n",
        b"profile p {\n  /srv/** rw,\n  deny /srv/*.old w,\n  /srv/a k,\n}\n",
        b"profile p {\n  /srv/[ab] r,\n  /srv/[bc] r,\n}\n",
    ];
    for text in texts {
        expect(&rt, rt.alloc(), text, Status::Done, b"");
    }
}

#[test]
fn rules_that_decide_nothing(rt: HostRuntime) {
    let rows: [(&[u8], &[u8]); 6] = [
        (
            b"profile p {\n  /home/*/** rw,\n  deny /home/*/.ssh/** w,\n  /home/*/.ssh/id_* r,\n}\n",
            b"rule 3, line 4: decides nothing: \"/home/*/.ssh/id_*\" r, (rule 1, line 2 allows each of its names, or a deny rule \
                denies it)\n",
        ),
        (
            b"profile p {\n  /srv/{a,b} r,\n  /srv/a r,\n\n  /srv/b r,\n  /srv/[a-z] k,\n}\n",
            b"rule 1, line 2: decides nothing: \"/srv/{a,b}\" r, (rule 2, line 3 or rule 3, line 5 allows each of its names, or a \
                deny rule denies it; rule 2 decides nothing either: leave out one of them, not both)
rule 2, line 3: decides nothing: \"/srv/a\" r, (rule 1, line 2 allows each of its names, or a deny rule denies it; rule 1 decides \
    nothing either: leave out one of them, not both)
rule 3, line 5: decides nothing: \"/srv/b\" r, (rule 1, line 2 allows each of its names, or a deny rule denies it; rule 1 decides \
    nothing either: leave out one of them, not both)
",
        ),
        (
            b"profile p {\n  /srv/** rw,\n  deny /srv/a r,\n  deny /srv/[ab] r,\n  deny /etc/* w,\n  /srv/a r,\n}\n",
            b"rule 2, line 3: decides nothing: deny \"/srv/a\" r, (rule 3, line 4 denies each of its names that is allowed)
rule 4, line 5: denies nothing that is allowed: deny \"/etc/*\" w,
rule 5, line 6: decides nothing: \"/srv/a\" r, (a deny rule denies each of its names)
",
        ),
        (
            b"profile p {\n  /a r,\n  /a r,\n}\n",
            b"rule 1, line 2: decides nothing: \"/a\" r, (rule 2, line 3 allows each of its names, or a deny rule denies it; rule 2 \
                decides nothing either: leave out one of them, not both)
rule 2, line 3: decides nothing: \"/a\" r, (rule 1, line 2 allows each of its names, or a deny rule denies it; rule 1 decides \
    nothing either: leave out one of them, not both)
",
        ),
        (
            b"profile p {\n  /a r,\n  /a r,\n  /a r,\n}\n",
            b"rule 1, line 2: decides nothing: \"/a\" r, (rule 3, line 4 allows each of its names, or a deny rule denies it; rule 3 \
                decides nothing either: leave out one of them, not both)
rule 2, line 3: decides nothing: \"/a\" r, (rule 1, line 2 allows each of its names, or a deny rule denies it; rule 1 decides \
    nothing either: leave out one of them, not both)
rule 3, line 4: decides nothing: \"/a\" r, (rule 1, line 2 allows each of its names, or a deny rule denies it; rule 1 decides \
    nothing either: leave out one of them, not both)
",
        ),
        (
            b"profile p {\n  /a w,\n  deny /a a,\n  deny /a w,\n}\n",
            b"rule 1, line 2: decides nothing: \"/a\" w, (a deny rule denies each of its names)
rule 2, line 3: decides nothing: deny \"/a\" a, (rule 3, line 4 denies each of its names that is allowed; rule 3 decides nothing of \
    this either: leave it out of one of them, not both)
",
        ),
    ];
    for (text, lines) in rows {
        expect(&rt, rt.alloc(), text, Status::Unmet, lines);
    }
}

// Letters that decide nothing of rules that decide something. Who may write may append.
#[test]
fn letters_that_decide_nothing(rt: HostRuntime) {
    let rows: [(&[u8], &[u8]); 4] = [
        (
            b"profile p {\n  /a rw,\n  /* w,\n}\n",
            b"rule 1, line 2: w decides nothing: \"/a\" rw, (rule 2, line 3 allows each of its names, or a deny rule denies it)\n",
        ),
        (
            b"profile p {\n  /a rw,\n  /a k,\n  /* r,\n  /* a,\n  deny /a w,\n}\n",
            b"rule 1, line 2: decides nothing: \"/a\" rw, (rule 3, line 4 allows each of its names, or a deny rule denies it)\n",
        ),
        (
            b"profile p {\n  /a r,\n  deny /a rw,\n  /b r,\n}\n",
            b"rule 1, line 2: decides nothing: \"/a\" r, (a deny rule denies each of its names)\nrule 2, line 3: w denies nothing \
                that is allowed: deny \"/a\" rw,\n",
        ),
        (
            b"profile p {\n  /** rwk,\n  deny /a rk,\n  deny /[ab] wk,\n}\n",
            b"rule 2, line 3: k decides nothing: deny \"/a\" rk, (rule 3, line 4 denies each of its names that is allowed)\n",
        ),
    ];
    for (text, lines) in rows {
        expect(&rt, rt.alloc(), text, Status::Unmet, lines);
    }
}

// The first stand-in that decides nothing of the part is named: of a letter, or of all of a rule.
#[test]
fn stand_ins_that_decide_nothing_of_a_part(rt: HostRuntime) {
    let rows: [(&[u8], &[u8]); 4] = [
        (
            b"profile p {\n  /a rw,\n  /a wk,\n}\n",
            b"rule 1, line 2: w decides nothing: \"/a\" rw, (rule 2, line 3 allows each of its names, or a deny rule denies it; \
                rule 2 decides nothing of this either: leave it out of one of them, not both)
rule 2, line 3: w decides nothing: \"/a\" wk, (rule 1, line 2 allows each of its names, or a deny rule denies it; rule 1 decides \
    nothing of this either: leave it out of one of them, not both)
",
        ),
        (
            b"profile p {\n  /a r,\n  /a rk,\n}\n",
            b"rule 1, line 2: decides nothing: \"/a\" r, (rule 2, line 3 allows each of its names, or a deny rule denies it; rule 2 \
                decides nothing of this either: leave it out of one of them, not both)
rule 2, line 3: r decides nothing: \"/a\" rk, (rule 1, line 2 allows each of its names, or a deny rule denies it; rule 1 decides \
    nothing either: leave out one of them, not both)
",
        ),
        (
            b"profile p {\n  /[ab] r,\n  /[ac] rk,\n  /b rk,\n}\n",
            b"rule 1, line 2: decides nothing: \"/[ab]\" r, (rule 2, line 3 or rule 3, line 4 allows each of its names, or a deny \
                rule denies it; rule 3 decides nothing of this either: leave it out of one of them, not both)
rule 3, line 4: r decides nothing: \"/b\" rk, (rule 1, line 2 allows each of its names, or a deny rule denies it; rule 1 decides \
    nothing either: leave out one of them, not both)
",
        ),
        (
            b"profile p {\n  /* rwk,\n  deny /a rk,\n  deny /a wk,\n}\n",
            b"rule 2, line 3: k decides nothing: deny \"/a\" rk, (rule 3, line 4 denies each of its names that is allowed; rule 3 \
                decides nothing of this either: leave it out of one of them, not both)
rule 3, line 4: k decides nothing: deny \"/a\" wk, (rule 2, line 3 denies each of its names that is allowed; rule 2 decides nothing \
    of this either: leave it out of one of them, not both)
",
        ),
    ];
    for (text, lines) in rows {
        expect(&rt, rt.alloc(), text, Status::Unmet, lines);
    }
}

#[test]
fn texts_that_are_refused(rt: HostRuntime) {
    expect(
        &rt,
        rt.alloc(),
        b"profile p {\n",
        Status::Refused,
        b"refused: read 1 at 12\n",
    );
}

#[test]
fn lines_of_json(rt: HostRuntime) {
    let rows: [(&[u8], Status, &[u8]); 5] = [
        (b"profile p {\n}\n", Status::Done, b""),
        (
            b"profile p {\n  /a rw,\n  /* w,\n}\n",
            Status::Unmet,
            b"{\"also_idle\":null,\"finding\":\"decides \
                nothing\",\"permission\":\"w\",\"rule\":{\"line\":2,\"number\":1,\"text\":\"\\\"/a\\\" \
                rw,\"},\"stand_ins\":[{\"line\":3,\"number\":2,\"text\":\"\\\"/*\\\" w,\"}]}\n",
        ),
        (
            b"profile p {\n  /a rw,\n  /a wk,\n}\n",
            Status::Unmet,
            b"{\"also_idle\":2,\"finding\":\"decides \
                nothing\",\"permission\":\"w\",\"rule\":{\"line\":2,\"number\":1,\"text\":\"\\\"/a\\\" \
                rw,\"},\"stand_ins\":[{\"line\":3,\"number\":2,\"text\":\"\\\"/a\\\" wk,\"}]}
{\"also_idle\":1,\"finding\":\"decides nothing\",\"permission\":\"w\",\"rule\":{\"line\":3,\"number\":2,\"text\":\"\\\"/a\\\" \
    wk,\"},\"stand_ins\":[{\"line\":2,\"number\":1,\"text\":\"\\\"/a\\\" rw,\"}]}
",
        ),
        (
            b"profile p {\n  deny /a r,\n  /b r,\n}\n",
            Status::Unmet,
            b"{\"also_idle\":null,\"finding\":\"denies nothing that is \
                allowed\",\"permission\":null,\"rule\":{\"line\":2,\"number\":1,\"text\":\"deny \\\"/a\\\" r,\"},\"stand_ins\":[]}\n",
        ),
        (
            b"profile p {\n",
            Status::Refused,
            b"refused: read 1 at 12\n",
        ),
    ];
    for (text, status, lines) in rows {
        expect_in(&rt, rt.alloc(), Format::Json, text, status, lines);
    }
}
