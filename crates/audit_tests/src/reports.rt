//! `audit` as a command, over streams and texts in memory.
ghost use Rattle.std.specs.Prelude.{◌<◌, length};

use named_texts::{GivenText, GivenTexts, LateText};
use std::alloc::Global;
use std::io::Read;
use std::process::Abort;
use std::test::Fail;
use test_parts::Random;
use trace_audit::audit;
use trace_report::{Format, Status};

/// What the command wrote, and its status.
#[derive(Drop)]
struct Ending {
    status: Status,
    answers: Vec<u8>,
    faults: Vec<u8>,
}

const VIEWER: &[u8] =
    b"profile viewer {\n  /home/*/** r,\n  deny /home/*/.ssh/** rw,\n  /srv/a rw,\n  /srv/* a,\n}\n";

const FLATTENED: &[u8] =
    b"profile web /usr/bin/web {\n  owner /srv/own rw,\n  /srv/all r,\n  profile child {\n    /srv/child r,\n  }\n}\n";

const TEXTS: [GivenText<'static>; 3] = [
    GivenText {
        name: "broken",
        text: b"profile broken {\n  #include <abstractions/base>\n}\n",
    },
    GivenText {
        name: "viewer",
        text: VIEWER,
    },
    GivenText {
        name: "web",
        text: FLATTENED,
    },
];

fn audit_in_memory(alloc: Global, profiles: &[&str], format: Format, log: &[u8]) -> Ending {
    let mut input = log;
    audit_of(alloc, profiles, format, &mut input)
}

fn audit_of<R: Read>(alloc: Global, profiles: &[&str], format: Format, input: &mut R) -> Ending {
    let texts = GivenTexts { texts: &TEXTS };
    let mut answers = Vec::new(alloc);
    let mut faults = Vec::new(alloc);
    let status = audit(
        alloc,
        &texts,
        profiles,
        format,
        input,
        &mut answers,
        &mut faults,
    );
    Ending {
        status,
        answers,
        faults,
    }
}

// Whether just this was written: as an answer, or as a fault.
fn expect_ending(rt: &impl Abort, ending: &Ending, status: Status, text: &[u8]) {
    assert!(rt; ending.status == status);
    let (written, empty) = if status == Status::Done {
        (ending.answers.as_slice(), ending.faults.as_slice())
    } else {
        (ending.faults.as_slice(), ending.answers.as_slice())
    };
    assert!(rt; written == text);
    assert!(rt; empty.is_empty());
}

// Whether just these lines are written about a log, by the two texts that can be imported.
fn expect(rt: &impl Abort, alloc: Global, log: &[u8], lines: &[u8]) {
    let ending = audit_in_memory(alloc, &["viewer", "web"], Format::Text, log);
    expect_ending(rt, &ending, Status::Done, lines);
}

#[test]
fn other_lines_are_passed_over(rt: HostRuntime) {
    let logs: [&[u8]; 5] = [
        b"",
        b"\n\n",
        b"Nov 30 10:00:01 host sshd[1]: Accepted publickey for me\n",
        b"audit: apparmor=\"STATUS\" operation=\"profile_load\" profile=\"unconfined\" name=\"viewer\" pid=7\n",
        b"type=AVC msg=audit(1.2:3): apparmor=\"DENIED\" operation=\"capable\" profile=\"viewer\" pid=7 comm=\"x\" capability=13\n",
    ];
    for log in logs {
        expect(&rt, rt.alloc(), log, b"");
    }
}

#[test]
fn each_verdict(rt: HostRuntime) {
    let log: &[u8] = b"Nov 30 10:00:01 host systemd[1]: Started.
Nov 30 10:00:01 host kernel: audit: type=1400 audit(1.2:3): apparmor=\"DENIED\" operation=\"open\" profile=\"viewer\" \
name=\"/etc/shadow\" pid=7 comm=\"cat\" requested_mask=\"r\" denied_mask=\"r\" fsuid=0 ouid=0
[    5.000001] audit: type=1400 audit(1.2:4): apparmor=\"DENIED\" operation=\"mknod\" class=\"file\" profile=\"viewer\" \
name=\"/srv/a\" pid=7 comm=\"cat\" requested_mask=\"wc\" denied_mask=\"wc\" fsuid=0 ouid=0
type=AVC msg=audit(1.2:5): apparmor=\"ALLOWED\" operation=\"open\" profile=\"viewer\" name=\"/home/me/.ssh/id\" pid=7 comm=\"cat\" \
requested_mask=\"rw\" denied_mask=\"rw\" fsuid=1 ouid=1
type=AVC msg=audit(1.2:6): apparmor=\"DENIED\" operation=\"exec\" profile=\"viewer\" name=\"/bin/sh\" requested_mask=\"x\" \
denied_mask=\"x\" fsuid=1 ouid=0
type=AVC msg=audit(1.2:7): apparmor=\"DENIED\" operation=\"exec\" profile=\"viewer\" name=\"/bin/a*b\" requested_mask=\"xr\" \
denied_mask=\"xr\" fsuid=1 ouid=0
type=AVC msg=audit(1.2:8): apparmor=\"DENIED\" operation=\"open\" profile=\"other\" name=\"/bin/sh\" requested_mask=\"r\" \
denied_mask=\"r\" fsuid=1 ouid=0
";
    expect(
        &rt,
        rt.alloc(),
        log,
        b"2 viewer /etc/shadow r: no rule for r; add: \"/etc/shadow\" r,
3 viewer /srv/a wc: allowed by rule 3: the profile has changed
4 viewer /home/me/.ssh/id rw: denied by rule 2: deny \"/home/*/.ssh/**\" rw,
5 viewer /bin/sh x: x is not judged
6 viewer /bin/a*b xr: no rule for r; x is not judged; add: \"/bin/a\\*b\" r,
7 other /bin/sh r: no such profile
",
    );
}

#[test]
fn equal_denials_are_one(rt: HostRuntime) {
    let log: &[u8] = b"apparmor=\"DENIED\" profile=\"viewer\" name=\"/x\" denied_mask=\"aw\"
apparmor=\"DENIED\" profile=\"viewer\" name=\"/y\" denied_mask=\"r\"
apparmor=\"DENIED\" profile=\"viewer\" name=\"/x\" denied_mask=\"aw\"
apparmor=\"DENIED\" profile=\"viewer\" name=\"/x\" denied_mask=\"aw\" fsuid=7 ouid=7
apparmor=\"ALLOWED\" profile=\"viewer\" name=\"/x\" denied_mask=\"aw\" fsuid=7 ouid=8";
    expect(
        &rt,
        rt.alloc(),
        log,
        b"1 viewer /x aw (3 times): no rule for wa; add: \"/x\" w,
2 viewer /y r: no rule for r; add: \"/y\" r,
4 viewer /x aw: no rule for wa; add: \"/x\" w,
",
    );
}

// A line that reports a denial: any two of them differ in the profile, name, mask or subject.
fn put_denial(log: &mut Vec<u8>, alloc: Global, denial: usize) -> Result<(), Fail> {
    let profile = if denial % 2 == 0 { "p" } else { "pq" };
    let mask = if denial / 2 % 2 == 0 { "r" } else { "rw" };
    let subject = denial / 4 % 2;
    let name = denial / 8;
    let line = format!(in alloc;
        "apparmor=\"DENIED\" profile=\"{profile}\" name=\"/{name}\" denied_mask=\"{mask}\" fsuid=1 ouid={subject}\n"
    )?;
    log.extend_from_slice(line.as_bytes())?;
    Ok(())
}

// What is to be written about the denial of a line, unless a line before it reports the same.
fn put_report(lines: &mut Vec<u8>, alloc: Global, denials: &[usize], i: usize) -> Result<(), Fail>
    requires { i < length denials.now }
{
    let denial = denials[i];
    if denials[..i].contains(&denial) {
        return Ok(());
    }
    let profile = if denial % 2 == 0 { "p" } else { "pq" };
    let mask = if denial / 2 % 2 == 0 { "r" } else { "rw" };
    let name = denial / 8;
    let number = i + 1;
    let times = denials.iter().filter(|other| **other == denial).count();
    let line = if times == 1 {
        format!(in alloc; "{number} {profile} /{name} {mask}: no such profile\n")?
    } else {
        format!(in alloc; "{number} {profile} /{name} {mask} ({times} times): no such profile\n")?
    };
    lines.extend_from_slice(line.as_bytes())?;
    Ok(())
}

// Drawn denials, of which some come once, and some several times.
#[test]
fn drawn_denials(rt: HostRuntime) -> Result<(), Fail> {
    let alloc = rt.alloc();
    let mut random = Random::new(1);
    let mut log = Vec::new(alloc);
    let mut denials = Vec::new(alloc);
    for _ in 0..700 {
        let denial = random.below(400);
        put_denial(&mut log, alloc, denial)?;
        denials.push(denial)?;
    }
    let mut lines = Vec::new(alloc);
    for i in 0..denials.len() {
        put_report(&mut lines, alloc, &denials, i)?;
    }
    expect(&rt, alloc, &log, &lines);
    Ok(())
}

// Two lines, of a profile that no text has and of one that a text has, and what is to be written about them.
fn put_other(log: &mut Vec<u8>, lines: &mut Vec<u8>, alloc: Global, i: u8) -> Result<(), Fail> {
    let number = 2 * usize::from(i) + 1;
    let next = number + 1;
    let denials = format!(in alloc;
        "apparmor=\"DENIED\" profile=\"p{i}\" name=\"/x\" denied_mask=\"r\"\n\
apparmor=\"DENIED\" profile=\"viewer\" name=\"/home/{i}/x\" denied_mask=\"r\"\n"
    )?;
    log.extend_from_slice(denials.as_bytes())?;
    let reports = format!(in alloc;
        "{number} p{i} /x r: no such profile\n{next} viewer /home/{i}/x r: allowed by rule 1: the profile has changed\n"
    )?;
    lines.extend_from_slice(reports.as_bytes())?;
    Ok(())
}

#[test]
fn profiles_of_containers_are_others(rt: HostRuntime) {
    let log: &[u8] = b"apparmor=\"DENIED\" profile=\"viewer\" name=\"/srv/a\" denied_mask=\"r\"
apparmor=\"DENIED\" namespace=\"root//lxd-c1\" profile=\"viewer\" name=\"/srv/a\" denied_mask=\"r\"
apparmor=\"KILLED\" profile=\"viewer\" name=\"/srv/a\" denied_mask=\"r\"
apparmor=\"DENIED\" namespace=\"root//lxd-c2\" profile=\"viewer\" name=\"/srv/a\" denied_mask=\"r\"
";
    expect(
        &rt,
        rt.alloc(),
        log,
        b"1 viewer /srv/a r (2 times): allowed by rule 3: the profile has changed
2 :root//lxd-c1://viewer /srv/a r: no such profile
4 :root//lxd-c2://viewer /srv/a r: no such profile
",
    );
}

#[test]
fn the_kernel_had_another_reason(rt: HostRuntime) {
    let log: &[u8] =
        b"apparmor=\"DENIED\" info=\"Failed name lookup - deleted entry\" error=-2 profile=\"viewer\" name=\"/srv/a\" denied_mask=\"r\"
apparmor=\"DENIED\" profile=\"viewer\" name=\"/srv/a\" denied_mask=\"r\"
apparmor=\"DENIED\" info=\"link not subset of target\" profile=\"viewer\" name=\"/home/a/.ssh/b\" denied_mask=\"w\"
apparmor=\"DENIED\" info=610A62 profile=\"viewer\" name=\"/bin/sh\" denied_mask=\"xr\"
apparmor=\"DENIED\" info=\"\" profile=\"viewer\" name=\"/bin/sh\" denied_mask=\"x\"
apparmor=\"DENIED\" info=\"i\" profile=\"other\" name=\"/x\" denied_mask=\"r\"
apparmor=\"DENIED\" info=\"i\" profile=\"viewer\" name=\"/srv/a\" denied_mask=\"rx\"
apparmor=\"DENIED\" info=\"i\" profile=\"viewer\" name=\"/srv/a\" denied_mask=\"rx\"
apparmor=\"DENIED\" info=\"j\" profile=\"viewer\" name=\"/srv/a\" denied_mask=\"rx\"
";
    expect(
        &rt,
        rt.alloc(),
        log,
        b"1 viewer /srv/a r: allowed by rule 3; the kernel's reason: Failed name lookup - deleted entry
2 viewer /srv/a r: allowed by rule 3: the profile has changed
3 viewer /home/a/.ssh/b w: denied by rule 2: deny \"/home/*/.ssh/**\" rw,; the kernel's reason: link not subset of target
4 viewer /bin/sh xr: no rule for r; x is not judged; add: \"/bin/sh\" r,; the kernel's reason: a?b
5 viewer /bin/sh x: x is not judged; the kernel's reason:\x20
6 other /x r: no such profile; the kernel's reason: i
7 viewer /srv/a rx (2 times): allowed by rule 3; x is not judged; the kernel's reason: i
9 viewer /srv/a rx: allowed by rule 3; x is not judged; the kernel's reason: j
",
    );
}

#[test]
fn rules_are_proposed_for_names_that_can_be_said(rt: HostRuntime) {
    let log: &[u8] = b"apparmor=\"DENIED\" profile=\"viewer\" name=2F6120C3BC22 denied_mask=\"r\"
apparmor=\"DENIED\" profile=\"viewer\" name=2F610A62 denied_mask=\"r\"
apparmor=\"DENIED\" profile=\"viewer\" name=\"run/x\" denied_mask=\"r\"
apparmor=\"DENIED\" profile=\"viewer\" name=\"/srv/x\" denied_mask=\"a\"
";
    expect(
        &rt,
        rt.alloc(),
        log,
        b"1 viewer /a \xc3\xbc\" r: no rule for r; add: \"/a \xc3\xbc\\\"\" r,
2 viewer /a?b r: no rule for r; no rule is proposed for this name
3 viewer run/x r: no rule for r; no rule is proposed for this name
4 viewer /srv/x a: allowed by rule 4: the profile has changed
",
    );
}

#[test]
fn the_owner_has_an_import_of_its_own(rt: HostRuntime) {
    let log: &[u8] =
        b"apparmor=\"DENIED\" profile=\"web\" name=\"/srv/own\" denied_mask=\"r\" fsuid=7 ouid=7
apparmor=\"DENIED\" profile=\"web\" name=\"/srv/own\" denied_mask=\"r\" fsuid=7 ouid=8
apparmor=\"DENIED\" profile=\"web\" name=\"/srv/own\" denied_mask=\"r\" fsuid=7
apparmor=\"DENIED\" profile=\"web//child\" name=\"/srv/child\" denied_mask=\"r\" fsuid=7 ouid=7
";
    expect(
        &rt,
        rt.alloc(),
        log,
        b"1 web /srv/own r: allowed by rule 1: the profile has changed
2 web /srv/own r (2 times): no rule for r; add: \"/srv/own\" r,
4 web//child /srv/child r: allowed by rule 1: the profile has changed
",
    );
}

#[test]
fn a_file_that_cannot_be_imported(rt: HostRuntime) {
    let log: &[u8] = b"apparmor=\"DENIED\" profile=\"viewer\" name=\"/x\" denied_mask=\"r\"
apparmor=\"DENIED\" profile=\"broken\" name=\"/x\" denied_mask=\"r\"
";
    let ending = audit_in_memory(rt.alloc(), &["broken", "viewer"], Format::Text, log);
    expect_ending(
        &rt,
        &ending,
        Status::Done,
        b"1 viewer /x r: no rule for r; add: \"/x\" r,
2 broken /x r: not imported: import 2 in broken
",
    );
    let missing = audit_in_memory(rt.alloc(), &["viewer", "missing"], Format::Text, log);
    expect_ending(&rt, &missing, Status::InputFailed, b"refused: input\n");
}

#[test]
fn a_log_that_cannot_be_read(rt: HostRuntime) {
    let texts = GivenTexts { texts: &TEXTS };
    let mut log = LateText::of(&texts, "missing");
    let ending = audit_of(rt.alloc(), &["viewer"], Format::Text, &mut log);
    expect_ending(&rt, &ending, Status::InputFailed, b"refused: input\n");
}

// Many names of profiles, one of which is there.
#[test]
fn profiles_of_many_names(rt: HostRuntime) -> Result<(), Fail> {
    let alloc = rt.alloc();
    let mut log = Vec::new(alloc);
    let mut lines = Vec::new(alloc);
    for i in 0..200_u8 {
        put_other(&mut log, &mut lines, alloc, i)?;
    }
    expect(&rt, alloc, &log, &lines);
    Ok(())
}

#[test]
fn objects(rt: HostRuntime) {
    let log: &[u8] =
        b"apparmor=\"DENIED\" profile=\"viewer\" name=\"/x\" denied_mask=\"r\" fsuid=7 ouid=7
apparmor=\"DENIED\" profile=\"viewer\" name=\"/x\" denied_mask=\"r\" fsuid=7 ouid=7
apparmor=\"DENIED\" profile=\"viewer\" name=2FFF denied_mask=\"x\"
apparmor=\"DENIED\" profile=\"viewer\" name=\"/srv/a\" denied_mask=\"rac\"
apparmor=\"DENIED\" profile=\"viewer\" name=\"/home/a/.ssh/b\" denied_mask=\"w\"
apparmor=\"DENIED\" profile=\"none\" name=\"/x\" denied_mask=\"r\"
apparmor=\"DENIED\" info=\"a b\" namespace=\"n\" profile=\"viewer\" name=\"/x\" denied_mask=\"r\"
";
    let ending = audit_in_memory(rt.alloc(), &["broken", "viewer"], Format::Json, log);
    expect_ending(
        &rt,
        &ending,
        Status::Done,
        b"{\"add\":\"\\\"/x\\\" r,\",\"file\":null,\"info\":null,\"line\":1,\"mask\":\"r\",\"missing\":\"r\",\"name\":\"/x\",\
\"profile\":\"viewer\",\"rules\":[],\"subject\":\"owner\",\"times\":2,\"verdict\":\"no rule\"}
{\"add\":null,\"file\":null,\"info\":null,\"line\":3,\"mask\":\"x\",\"missing\":null,\"name\":[47,255],\"profile\":\"viewer\",\
\"rules\":[],\"subject\":\"others\",\"times\":1,\"verdict\":\"not judged\"}
{\"add\":null,\"file\":null,\"info\":null,\"line\":4,\"mask\":\"rac\",\"missing\":null,\"name\":\"/srv/a\",\"profile\":\"viewer\",\
\"rules\":[3],\"subject\":\"others\",\"times\":1,\"verdict\":\"allowed\"}
{\"add\":null,\"file\":null,\"info\":null,\"line\":5,\"mask\":\"w\",\"missing\":null,\"name\":\"/home/a/.ssh/b\",\"profile\":\"viewer\",\
\"rules\":[2],\"subject\":\"others\",\"times\":1,\"verdict\":\"denied\"}
{\"add\":null,\"file\":\"broken\",\"info\":null,\"line\":6,\"mask\":\"r\",\"missing\":null,\"name\":\"/x\",\"profile\":\"none\",\
\"rules\":[],\"subject\":\"others\",\"times\":1,\"verdict\":\"not imported\"}
{\"add\":null,\"file\":\"broken\",\"info\":\"a b\",\"line\":7,\"mask\":\"r\",\"missing\":null,\"name\":\"/x\",\
\"profile\":\":n://viewer\",\"rules\":[],\"subject\":\"others\",\"times\":1,\"verdict\":\"not imported\"}
",
    );
}
