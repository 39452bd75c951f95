//! The least names that profiles answer as is wanted, each worked out by hand.
use crate::rules::compiled;
use profile_questions::{Answer, Answers, Comparison};
use std::alloc::Global;
use std::process::Abort;
use std::test::Fail;
use test_parts::perms;

// The rules of three profiles, what is wanted of each, and the least name.
#[derive(Clone, Copy)]
struct Row<'a> {
    first: (&'a [u8], Answer),
    second: (&'a [u8], Answer),
    third: (&'a [u8], Answer),
    least: Option<&'a [u8]>,
}

fn expect_row(rt: &impl Abort, alloc: Global, row: Row<'_>) -> Result<(), Fail> {
    let first = compiled(alloc, row.first.0)?;
    let second = compiled(alloc, row.second.0)?;
    let third = compiled(alloc, row.third.0)?;
    let comparison = Comparison::of(alloc, &first, &second, &third)?;
    let answers = Answers {
        first: row.first.1,
        second: row.second.1,
        third: row.third.1,
    };
    let found = comparison.shortest(alloc, answers)?;
    match (found, row.least) {
        (Some(name), Some(least)) => assert!(rt; name.as_slice() == least),
        (None, None) => {}
        _ => return Err(Fail::from("another answer")),
    }
    Ok(())
}

const ANY: (&[u8], Answer) = (b"", Answer::Any);

// Whether some name of a pattern, a rule for `r`, is allowed what is asked.
#[test]
fn some_name_of_a_pattern(rt: HostRuntime) -> Result<(), Fail> {
    let alloc = rt.alloc();
    let taken = Answer::Allowed(perms(b"r")?);
    let write = Answer::Allowed(perms(b"w")?);
    let both = Answer::Allowed(perms(b"rw")?);
    let rules: &[u8] = b"/etc/[k-m]/b w, /etc/k/b r, deny /etc/k/* w,";
    let rows: [(Answer, &[u8], Option<&[u8]>); 5] = [
        (write, b"/etc/** r,", Some(b"/etc/l/b")),
        (write, b"/etc/*/[ab] r,", Some(b"/etc/l/b")),
        (write, b"/etc/[^l]/* r,", Some(b"/etc/m/b")),
        (write, b"/usr/** r,", None),
        (both, b"/** r,", None),
    ];
    for (answer, pattern, least) in rows {
        let row = Row {
            first: (rules, answer),
            second: (pattern, taken),
            third: ANY,
            least,
        };
        expect_row(&rt, alloc, row)?;
    }
    Ok(())
}

// The least names of patterns: shorter ones are less, and bytes from `a` on come before those below it.
#[test]
fn least_name_of_a_pattern(rt: HostRuntime) -> Result<(), Fail> {
    let alloc = rt.alloc();
    let taken = Answer::Allowed(perms(b"r")?);
    let rows: [(&[u8], Option<&[u8]>); 6] = [
        (b"/etc/** r,", Some(b"/etc/a")),
        (b"/etc/[^a]* r,", Some(b"/etc/b")),
        (b"/etc/[0-9Z]{,z} r,", Some(b"/etc/0")),
        (b"/etc/[0-9~] r,", Some(b"/etc/~")),
        (b"/etc/{Z,`,0}{y,1} r,", Some(b"/etc/0y")),
        (b"/etc/{Z,`,z9}{y,z} r,", Some(b"/etc/Zy")),
    ];
    for (pattern, least) in rows {
        let row = Row {
            first: (pattern, taken),
            second: ANY,
            third: ANY,
            least,
        };
        expect_row(&rt, alloc, row)?;
    }
    Ok(())
}

// Whether all names of a pattern are allowed what is asked: the least that isn't.
#[test]
fn all_names_of_a_pattern(rt: HostRuntime) -> Result<(), Fail> {
    let alloc = rt.alloc();
    let taken = Answer::Allowed(perms(b"r")?);
    let refused = Answer::Refused(perms(b"a")?);
    let rows: [(&[u8], &[u8], Option<&[u8]>); 4] = [
        (b"/log/* w,", b"/log/[a-z] r,", None),
        (
            b"/log/* w, deny /log/[m-p] a,",
            b"/log/[a-z] r,",
            Some(b"/log/m"),
        ),
        (b"/log/[a-y] a,", b"/log/[a-z]{,z} r,", Some(b"/log/z")),
        (b"/log/[a-z] a,", b"/log/[ab]{,z} r,", Some(b"/log/az")),
    ];
    for (rules, pattern, least) in rows {
        let row = Row {
            first: (rules, refused),
            second: (pattern, taken),
            third: ANY,
            least,
        };
        expect_row(&rt, alloc, row)?;
    }
    Ok(())
}

// What two profiles allow differently, here below a pattern: names begin with a slash, and have no byte 0.
#[test]
fn what_two_profiles_allow(rt: HostRuntime) -> Result<(), Fail> {
    let alloc = rt.alloc();
    let read = perms(b"r")?;
    let allowed = Answer::Allowed(read);
    let refused = Answer::Refused(read);
    let old: &[u8] = b"/a/{b,cc} r,";
    let new: &[u8] = b"/a/?? r, /a/[bd] r,";
    let rows: [(&[u8], Answer, &[u8], Answer, &[u8], Option<&[u8]>); 5] = [
        (new, allowed, old, refused, b"/** r,", Some(b"/a/d")),
        (old, allowed, new, refused, b"/** r,", None),
        (new, allowed, old, refused, b"/a/?* r,", Some(b"/a/d")),
        (new, allowed, old, refused, b"/a/?? r,", Some(b"/a/aa")),
        (
            new,
            allowed,
            old,
            refused,
            b"/a/[cd][c-e] r,",
            Some(b"/a/cd"),
        ),
    ];
    for (first, one, second, other, pattern, least) in rows {
        let row = Row {
            first: (first, one),
            second: (second, other),
            third: (pattern, allowed),
            least,
        };
        expect_row(&rt, alloc, row)?;
    }
    Ok(())
}
