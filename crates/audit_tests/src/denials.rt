//! The denials that lines report.
use audit_log::{Denial, parse_line};
use std::alloc::Global;
use std::process::Abort;

/// What a line reports.
#[derive(Clone, Copy)]
struct Row<'a> {
    line: &'a [u8],
    profile: &'a [u8],
    name: &'a [u8],
    mask: &'a [u8],
    by_owner: bool,
    info: Option<&'a [u8]>,
}

fn expect(rt: &impl Abort, alloc: Global, row: Row<'_>) {
    let Ok(Some(denial)) = parse_line(alloc, row.line) else {
        return assert!(rt; false);
    };
    expect_denial(rt, &denial, row);
}

fn expect_denial(rt: &impl Abort, denial: &Denial, row: Row<'_>) {
    assert!(rt; denial.profile.as_slice() == row.profile);
    assert!(rt; denial.name.as_slice() == row.name);
    assert!(rt; denial.mask.as_slice() == row.mask);
    assert!(rt; denial.by_owner == row.by_owner);
    assert!(rt; is_info(denial, row.info));
}

fn is_info(denial: &Denial, info: Option<&[u8]>) -> bool {
    match (&denial.info, info) {
        (Some(said), Some(text)) => said.as_slice() == text,
        (None, None) => true,
        _ => false,
    }
}

#[test]
fn lines_of_journalctl_dmesg_and_auditd(rt: HostRuntime) {
    let lines: [&[u8]; 5] = [
        b"Nov 30 10:00:01 host kernel: audit: type=1400 audit(1700000000.123:45): apparmor=\"DENIED\" operation=\"open\" class=\"file\" \
profile=\"traceroute\" name=\"/etc/shadow\" pid=7 comm=\"cat\" requested_mask=\"rw\" denied_mask=\"r\" fsuid=0 ouid=0",
        b"Nov 30 10:00:01 host audit[7]: AVC apparmor=\"DENIED\" operation=\"open\" profile=\"traceroute\" name=\"/etc/shadow\" pid=7 \
comm=\"cat\" requested_mask=\"r\" denied_mask=\"r\" fsuid=0 ouid=0",
        b"[  123.456789] audit: type=1400 audit(1700000000.123:45): apparmor=\"ALLOWED\" operation=\"open\" profile=\"traceroute\" \
name=2F6574632F736861646F77 pid=7 comm=612062 requested_mask=\"r\" denied_mask=\"r\" fsuid=0 ouid=0\r",
        b"type=AVC msg=audit(1700000000.123:45): apparmor=\"DENIED\" operation=\"open\" class=\"file\" \
profile=\"traceroute\" name=\"/etc/shadow\" pid=7 comm=\"cat\" requested_mask=\"r\" denied_mask=\"r\" fsuid=0 ouid=0\x1dFSUID=\"root\"",
        b"type=1400 audit(1700000000.123:45): apparmor=\"DENIED\" profile=7472616365726F757465 name=\"/etc/shadow\" requested_mask=\"r\" \
fsuid=0 ouid=0",
    ];
    for line in lines {
        let row = Row {
            line,
            profile: b"traceroute",
            name: b"/etc/shadow",
            mask: b"r",
            by_owner: true,
            info: None,
        };
        expect(&rt, rt.alloc(), row);
    }
}

#[test]
fn values_of_fields(rt: HostRuntime) {
    let rows = [
        Row {
            line: b"apparmor=\"DENIED\" profile=\"a b\" name=2f00FF denied_mask=\"wc\" fsuid=1 ouid=11",
            profile: b"a b",
            name: b"/\x00\xff",
            mask: b"wc",
            by_owner: false,
            info: None,
        },
        Row {
            line: b"apparmor=DENIED profile=word name=abc denied_mask=x ouid=1",
            profile: b"word",
            name: b"abc",
            mask: b"x",
            by_owner: false,
            info: None,
        },
        Row {
            line: b"info=\" name=/x apparmor=STATUS\" apparmor=\"DENIED\" name=\"/y\" profile=\"\" denied_mask=\"k\" name=\"/z\"",
            profile: b"",
            name: b"/y",
            mask: b"k",
            by_owner: false,
            info: Some(b" name=/x apparmor=STATUS"),
        },
    ];
    for row in rows {
        expect(&rt, rt.alloc(), row);
    }
}

#[test]
fn namespaces_and_reasons(rt: HostRuntime) {
    let rows = [
        Row {
            line: b"apparmor=\"DENIED\" operation=\"open\" info=\"Failed name lookup - deleted entry\" error=-2 \
namespace=\"root//lxd-c1\" profile=\"/usr/sbin/named\" name=\"/x\" pid=7 comm=\"x\" requested_mask=\"r\" denied_mask=\"r\"",
            profile: b":root//lxd-c1:///usr/sbin/named",
            name: b"/x",
            mask: b"r",
            by_owner: false,
            info: Some(b"Failed name lookup - deleted entry"),
        },
        Row {
            line: b"apparmor=\"KILLED\" info=610062 namespace=726F6F742F2F612062 profile=70 name=\"/x\" denied_mask=\"r\"",
            profile: b":root//a b://p",
            name: b"/x",
            mask: b"r",
            by_owner: false,
            info: Some(b"a\x00b"),
        },
        Row {
            line: b"apparmor=\"ALLOWED\" profile=\"p\" name=\"/x\" denied_mask=\"r\" namespace=\"\" info=\"\"",
            profile: b":://p",
            name: b"/x",
            mask: b"r",
            by_owner: false,
            info: Some(b""),
        },
    ];
    for row in rows {
        expect(&rt, rt.alloc(), row);
    }
}

#[test]
fn other_lines(rt: HostRuntime) {
    let lines: [&[u8]; 10] = [
        b"",
        b"apparmor=\"AUDIT\" profile=\"p\" name=\"/x\" denied_mask=\"r\"",
        b"xapparmor=\"DENIED\" profile=\"p\" name=\"/x\" denied_mask=\"r\"",
        b"msg='apparmor=\"DENIED\" profile=\"p\" name=\"org.x\" mask=\"send\"",
        b"apparmor=\"DENIED\" profile=\"p\" name=\"/x\" denied_mask=\"\"",
        b"apparmor=\"DENIED\" profile=\"p\" name=\"/x\" denied_mask=\"send\" requested_mask=\"r\"",
        b"apparmor=\"DENIED\" profile=\"p\" denied_mask=\"r\"",
        b"apparmor=\"DENIED\" profile=\"p\" denied_mask=\"r\" name=\"/x",
        b"apparmor=\"DENIED\" profile=\"p\" name=\"/x\" denied_mask=\"r\" namespace=\"q",
        b"apparmor=\"DENIED\" profile=\"p\" name=\"/x\" denied_mask=\"r\" info=\"q",
    ];
    for line in lines {
        assert!(rt; matches!(parse_line(rt.alloc(), line), Ok(None)));
    }
}
