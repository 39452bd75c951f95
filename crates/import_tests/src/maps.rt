//! Maps of rules, and what becomes of one that can't be written.
use crate::texts::{CUPS, OF_CUPS, PASSWD, PLAIN};
use import_profile::import_profile;
use std::io;
use std::io::{ErrorKind, Write};
use trace_import::{AccountChoice, import_with_map};
use trace_report::Status;

const CUPS_MAP: &str = "1 5:3 <tunables/home>
2 7:3 <abstractions/base>
3 8:3 <abstractions/base>
4 8:3 <abstractions/base>
5 8:3 <abstractions/base>
";

/// Can't be written to.
#[derive(Drop)]
struct Full;

impl Write for Full {
    fn write(&mut self, _buf: &[u8]) -> io::Result<usize> {
        Err(io::Error::from(ErrorKind::StorageFull))
    }

    fn flush(&mut self) -> io::Result<()> {
        Ok(())
    }
}

#[test]
fn maps_of_rules(rt: HostRuntime) {
    let alloc = rt.alloc();
    for (options, text, lines) in [(OF_CUPS, CUPS, CUPS_MAP), (PLAIN, PASSWD, "1 2:3\n")] {
        let (mut map, mut answers, mut faults) = (
            Vec::new(alloc),
            Vec::new(alloc),
            Vec::new(alloc),
        );
        let status = import_with_map(
            alloc,
            options,
            AccountChoice::Nothing,
            &mut text.as_bytes(),
            &mut map,
            &mut answers,
            &mut faults,
        );
        assert!(rt; status == Status::Done && !answers.is_empty() && faults.is_empty());
        assert!(rt; map.as_slice() == lines.as_bytes());
    }
}

/// Where the map can't be written, the profile isn't either.
#[test]
fn maps_that_are_not_written(rt: HostRuntime) {
    let alloc = rt.alloc();
    let (mut answers, mut faults) = (Vec::new(alloc), Vec::new(alloc));
    let status = import_with_map(
        alloc,
        PLAIN,
        AccountChoice::Changes,
        &mut PASSWD.as_bytes(),
        &mut Full,
        &mut answers,
        &mut faults,
    );
    assert!(rt; status == Status::OutputFailed && answers.is_empty());
    assert!(rt; faults.as_slice() == b"refused: output\n".as_slice());
}

/// The span of an imported rule begins where its origin does.
#[test]
fn origins_of_rules(rt: HostRuntime) {
    let imported = import_profile(rt.alloc(), OF_CUPS, CUPS.as_bytes());
    let start = match &imported {
        Ok(imported) => match imported.profile.rules().get(1) {
            Some(rule) => rule.span().start,
            None => 0,
        },
        Err(_) => 0,
    };
    let (_, rest) = CUPS.as_bytes().split_at(start.min(CUPS.len()));
    assert!(rt; rest.starts_with(b"owner @{H}/x rw,"));
}
