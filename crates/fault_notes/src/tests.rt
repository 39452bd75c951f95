//! What is said about worked texts and images, byte for byte.

use crate::{image_notes, import_all_notes, import_notes, profile_notes};
use apparmor_rules::Subject;
use import_profile::ImportOptions;
use std::process::Abort;
use std::test::Fail;

#[test]
fn texts_of_profiles(rt: HostRuntime) -> Result<(), Fail> {
    let rows: [(&[u8], &[u8]); 3] = [
        (
            b"profile p {\n  /x r\n}\n",
            b"line 3, column 1: a comma is missing at byte 19\n}\n^\n",
        ),
        (
            b"abi <abi/4.0>,\n",
            b"line 1, column 1: not supported: abi at byte 0; aa-trace import takes it\nabi <abi/4.0>,\n^\n",
        ),
        (
            b"profile p {\n}\n",
            b"too many states: names lead to more than 16,384 sets of live places of the rules\n",
        ),
    ];
    for (text, notes) in rows {
        let said = profile_notes(rt.alloc(), text).ok().ok_or("notes")?;
        assert!(rt; said.as_slice() == notes);
    }
    Ok(())
}

#[test]
fn images(rt: HostRuntime) -> Result<(), Fail> {
    let rows: [(&[u8], &[u8]); 2] = [
        (
            b"PTAB",
            b"an image has a header of 20 bytes, and here are fewer\n",
        ),
        (
            b"profile web { /srv/** r, }",
            b"an image begins with the four bytes PTAB\n",
        ),
    ];
    for (image, notes) in rows {
        let said = image_notes(rt.alloc(), image).ok().ok_or("notes")?;
        assert!(rt; said.as_slice() == notes);
    }
    Ok(())
}

// Texts, and what is said of their imports.
const IMPORTS: [(&[u8], &[u8]); 8] = [
    (b"profile p {\n}\n", b""),
    (
        b"include <a>\n",
        b"line 1, column 1: an include: flatten the text first: apparmor_parser -qQp FILE\ninclude <a>\n^\n",
    ),
    (
        b"@{A}=/a\n\n@{A}=/b\nprofile p {\n}\n",
        b"line 3, column 1: @{A} is declared in line 1\n@{A}=/b\n^\n",
    ),
    (
        b"@{B}=/a\n@{A}+=/b\nprofile p {\n}\n",
        b"line 2, column 1: @{A} isn't declared before it is added to\n@{A}+=/b\n^\n",
    ),
    (
        b"@{profile_name}=/a\nprofile p {\n}\n",
        b"line 1, column 1: @{profile_name} is given by AppArmor: a text can't assign to it\n@{profile_name}=/a\n^\n",
    ),
    (
        b"profile p {\n  @{A}/x r,\n}\n",
        b"line 2, column 3: the variable @{A} isn't declared; --define NAME=VALUE gives a variable a value\n  @{A}/x r,\n  ^\n",
    ),
    (
        b"profile p {\n}\nprofile q {\n}\n",
        b"the profiles there are, as listed: choose one by --profile NAME, or import each by --all\n",
    ),
    (
        b"if x {\n}\n",
        b"line 1, column 1: not supported: if\nif x {\n^\n",
    ),
];

// Texts in which a comma is missing, and the place of what comes after it.
const COMMAS: [(&[u8], &str); 6] = [
    (b"profile p {\n  /x r\n}\n", "line 3, column 1"),
    (b"profile p {\n  /x r\n  /y r\n}\n", "line 3, column 3"),
    (
        b"profile p {\n  profile q {\n    /x r\n  }\n}\n",
        "line 4, column 3",
    ),
    (
        b"profile p {\n  profile q {\n    /x r  # c\n    /y r,\n",
        "line 4, column 5",
    ),
    (b"profile p {\n  capability chown\n}\n", "line 3, column 1"),
    (b"profile p {\n  network inet}\n", "line 2, column 15"),
];

// Texts that the grammar doesn't allow for other reasons, and those places.
const FAULTS: [(&[u8], &str); 9] = [
    (b"profile p {\n  /x r%,\n}\n", "line 2, column 7"),
    (b"profile p {\n  /x r,,\n}\n", "line 2, column 8"),
    (b"profile p {\n  }\n}\n", "line 3, column 1"),
    (b"profile p {\n  \"/x r,\n}\n", "line 2, column 9"),
    (
        b"profile p {\n  \"/x\\\\\" r, \"/y\" r,\n}\n",
        "line 2, column 8",
    ),
    (b"profile \"\" {\n}\n", "line 1, column 10"),
    (
        b"profile p {\n  capability chown,kill,\n}\n",
        "line 2, column 19",
    ),
    (b"profile p {\n  signal (send\n}\n", "line 3, column 1"),
    (b"profile p {\n  unix (send(x)) ,\n}\n", "line 2, column 13"),
];

// Texts that end too early.
const ENDS: [&[u8]; 5] = [
    b"",
    b"@{A}=/a",
    b"profile p {\n  /x r,  # c",
    b"profile p {\n  /x r",
    b"profile p {\n  signal (send,",
];

const OPTIONS: ImportOptions<'static> = ImportOptions {
    profile: None,
    subject: Subject::Owner,
    defines: &[],
    overrides: false,
    strict: false,
};

#[test]
fn imports_of_all(rt: HostRuntime) -> Result<(), Fail> {
    let rows: [(&[u8], &[u8]); 2] = [
        (b"profile p {\n}\nprofile q {\n}\n", b""),
        (
            b"profile p {\n}\nprofile q {\n  @{A}/x r,\n}\n",
            b"line 4, column 3: the variable @{A} isn't declared; --define NAME=VALUE gives a variable a value\n  @{A}/x r,\n  ^\n",
        ),
    ];
    for (text, notes) in rows {
        let said = import_all_notes(rt.alloc(), OPTIONS, text)
            .ok()
            .ok_or("notes")?;
        assert!(rt; said.as_slice() == notes);
    }
    Ok(())
}

#[test]
fn imports(rt: HostRuntime) -> Result<(), Fail> {
    for (text, notes) in IMPORTS {
        let said = import_notes(rt.alloc(), OPTIONS, text).ok().ok_or("notes")?;
        assert!(rt; said.as_slice() == notes);
    }
    Ok(())
}

/// Whether the notes on an import of this text begin with the place and the sentence.
fn begins_with(rt: HostRuntime, text: &[u8], place: &str, sentence: &str) -> Result<bool, Fail> {
    let alloc = rt.alloc();
    let said = import_notes(alloc, OPTIONS, text).ok().ok_or("notes")?;
    let line = format!(in alloc; "{place}: {sentence}\n")
        .ok()
        .ok_or("line")?;
    Ok(said.starts_with(line.as_bytes()))
}

#[test]
fn commas_are_missing(rt: HostRuntime) -> Result<(), Fail> {
    for (text, place) in COMMAS {
        assert!(rt; begins_with(rt, text, place, "a comma is missing before this")?);
    }
    Ok(())
}

#[test]
fn no_comma_is_missing(rt: HostRuntime) -> Result<(), Fail> {
    let sentence = "the grammar of profiles doesn't allow what is here";
    for (text, place) in FAULTS {
        assert!(rt; begins_with(rt, text, place, sentence)?);
    }
    Ok(())
}

#[test]
fn texts_end_too_early(rt: HostRuntime) -> Result<(), Fail> {
    for text in ENDS {
        let said = import_notes(rt.alloc(), OPTIONS, text).ok().ok_or("notes")?;
        let line: &[u8] = b": the text ends where more must follow\n";
        assert!(rt; said.windows(line.len()).any(|part| part == line));
    }
    Ok(())
}
