//! What is said about worked scripts, byte for byte.

use crate::{Script, script_notes};
use std::alloc::Global;
use std::process::Abort;
use std::test::Fail;

// Whether this is what is said about the script.
fn expect(
    rt: &impl Abort,
    alloc: Global,
    script: Script,
    text: &[u8],
    notes: &[u8],
) -> Result<(), Fail> {
    let said = script_notes(alloc, script, text).ok().ok_or("notes")?;
    assert!(rt; said.as_slice() == notes);
    Ok(())
}

#[test]
fn scripts_of_run(rt: HostRuntime) -> Result<(), Fail> {
    let rows: [(&[u8], &[u8]); 7] = [
        (b"# nothing\r\nmkdir /a\ncreate /a/f", b""),
        (
            b"mkdir /a\npolicy\nprofile p {\n  /x r\n  /y r,\n}\n.\nmkdir /b\n",
            b"line 5, column 3: a comma is missing at byte 21\n  /y r,\n  ^\n",
        ),
        (
            b"mkdir /a\n  opn p /a r\nmkdir\n",
            b"line 2, column 3: no command begins with this word\n  opn p /a r\n  ^\n",
        ),
        (
            b"mkdir\n",
            b"line 1, column 1: too few words: mkdir PATH\nmkdir\n^\n",
        ),
        (
            b"mkdir /a /b\r\n",
            b"line 1: a CR ends or is in a word, to which it belongs\nline 1, column 10: too many words: mkdir PATH\n\
              mkdir /a /b?\n         ^\n",
        ),
        (
            b"open p /a q\n",
            b"line 1, column 11: the last word is no permissions: open PROFILE PATH PERMS\nopen p /a q\n          ^\n",
        ),
        (
            b"mkdir /\x01a\nmkdir /\x02\npolicy\nprofile p {\n",
            b"line 1: a control byte is in a word, to which it belongs\n\
              line 3: the policy that begins here has no end, which is a line with a single dot\n",
        ),
    ];
    for (text, notes) in rows {
        expect(&rt, rt.alloc(), Script::Run, text, notes)?;
    }
    Ok(())
}

#[test]
fn scripts_of_steps(rt: HostRuntime) -> Result<(), Fail> {
    let rows: [(&[u8], &[u8]); 6] = [
        (b"mkdir /a\nset 3\nclose\n", b""),
        (
            b"set x\n",
            b"line 1, column 5: the last word is no number below 2^64: set NUMBER\nset x\n    ^\n",
        ),
        (
            b"cell 1 18446744073709551616\n",
            b"line 1, column 8: the last word is no number below 2^64: cell SESSION NUMBER\ncell 1 18446744073709551616\n       ^\n",
        ),
        (
            b" cell\t0 x\n",
            b"line 1, column 7: the second word is no session, which is a digit from 1 to 9: cell SESSION NUMBER\n cell 0 x\n      ^\n",
        ),
        (
            b"begin 12 p /a q\n",
            b"line 1, column 7: the second word is no session, which is a digit from 1 to 9: begin SESSION PROFILE PATH PERMS\n\
              begin 12 p /a q\n      ^\n",
        ),
        (
            b"begin 1 p /a q\n",
            b"line 1, column 14: the last word is no permissions: begin SESSION PROFILE PATH PERMS\nbegin 1 p /a q\n             ^\n",
        ),
    ];
    for (text, notes) in rows {
        expect(&rt, rt.alloc(), Script::Steps, text, notes)?;
    }
    Ok(())
}

#[test]
fn changes_after_keep(rt: HostRuntime) -> Result<(), Fail> {
    let rows: [(&[u8], &[u8]); 4] = [
        (
            b"keep\n",
            b"line 1, column 1: too few words: keep CHANGE..\nkeep\n^\n",
        ),
        (
            b"keep mkdir\n",
            b"line 1, column 6: too few words: mkdir PATH\nkeep mkdir\n     ^\n",
        ),
        (
            b"keep link a b  c\n",
            b"line 1, column 16: too many words: link OLD NEW\nkeep link a b  c\n               ^\n",
        ),
        (
            b"keep open p /a r\n",
            b"line 1, column 6: no change of the tree begins with this word\nkeep open p /a r\n     ^\n",
        ),
    ];
    for (text, notes) in rows {
        expect(&rt, rt.alloc(), Script::Steps, text, notes)?;
    }
    Ok(())
}

#[test]
fn scripts_of_test(rt: HostRuntime) -> Result<(), Fail> {
    let rows: [(&[u8], &[u8]); 6] = [
        (b"mkdir \"/a b\"\nexpect ok\njudge p \"/\\x41\" r\n", b""),
        (
            b"mkdir \"/a\n",
            b"line 1, column 1: a quote isn't closed, or what follows it, or a backslash in it, isn't understood\nmkdir \"/a\n^\n",
        ),
        (
            b"judge p /a q\n",
            b"line 1, column 12: the last word is no permissions: judge PROFILE NAME PERMS\njudge p /a q\n           ^\n",
        ),
        (
            b"judge p \"/a b\" q\n",
            b"line 1, column 1: the last word is no permissions: judge PROFILE NAME PERMS\njudge p \"/a b\" q\n^\n",
        ),
        (
            b"expect\n",
            b"line 1, column 1: too few words: expect ANSWER..\nexpect\n^\n",
        ),
        (
            b"\"expect\" ok\n",
            b"line 1, column 1: no command begins with this word\n\"expect\" ok\n^\n",
        ),
    ];
    for (text, notes) in rows {
        expect(&rt, rt.alloc(), Script::Test, text, notes)?;
    }
    Ok(())
}
