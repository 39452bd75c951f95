//! Verdicts worked out by hand, and the steps to them.
use super::*;

// Rules, a name, the letters of what is asked, and the text of the expected verdict.
type Row<'a> = (&'a [u8], &'a [u8], &'a [u8], &'a str);

fn expect_told(
    rt: &impl Abort,
    alloc: Global,
    table: &VerifiedTable,
    row: &Row<'_>,
) -> Result<(), Fail> {
    let (_, name, letters, want) = row;
    let ask = Perms::from_letters(letters).ok_or("letters")?;
    let told = judge(table, name, ask).to_string(alloc)?;
    assert!(rt; told.as_str() == *want, "{want} at {name:?}");
    Ok(())
}

fn expect_loaded_told(
    rt: &impl Abort,
    alloc: Global,
    compiled: &CompiledProfile,
    row: &Row<'_>,
) -> Result<(), Fail> {
    let loaded = loaded_of(alloc, compiled)?;
    expect_told(rt, alloc, loaded.table(), row)
}

// Both profiles, the compiled one and that of its image, give the expected verdict.
fn expect_verdict(rt: &impl Abort, alloc: Global, row: &Row<'_>) -> Result<(), Fail> {
    let compiled = compiled_of(alloc, row.0)?;
    expect_told(rt, alloc, compiled.table(), row)?;
    expect_loaded_told(rt, alloc, &compiled, row)
}

fn expect_verdicts(rt: &impl Abort, alloc: Global, rows: &[Row<'_>]) -> Result<(), Fail> {
    for row in rows {
        expect_verdict(rt, alloc, row)?;
    }
    Ok(())
}

const PASSWD: &[u8] = b"/etc/passwd r,";

#[test]
fn worked_verdicts(rt: HostRuntime) -> Result<(), Fail> {
    let keys: &[u8] = b"/a/** rw, deny /a/k* w,";
    let swapped: &[u8] = b"deny /a/k* w, /a/** rw,";
    let all: &[u8] = b"/tmp/** r,";
    let twice: &[u8] = b"/a rw, deny /a w, deny /a r, deny /a m,";
    expect_verdicts(
        &rt,
        rt.alloc(),
        &[
            (PASSWD, b"/etc/passwd", b"r", "allowed"),
            (PASSWD, b"/etc/passwd", b"rw", "no rule for w"),
            (PASSWD, b"/etc/passwd", b"mklw", "no rule for wlkm"),
            (PASSWD, b"/etc/passw", b"r", "no rule for r"),
            (PASSWD, b"/etc/passwd\0", b"r", "no rule for r"),
            (keys, b"/a/key", b"rw", "denied by rule 2"),
            (keys, b"/a/key", b"r", "allowed"),
            (keys, b"/a/", b"r", "no rule for r"),
            (keys, b"/a/key/x", b"rw", "allowed"),
            (keys, b"/a/key", b"rwl", "denied by rule 2"),
            (swapped, b"/a/key", b"rw", "denied by rule 1"),
            (all, b"/tmp/", b"r", "no rule for r"),
            (all, b"/tmp/d/", b"r", "allowed"),
            (all, b"/tmp/\xff", b"r", "allowed"),
            (twice, b"/a", b"rw", "denied by rule 2"),
            (twice, b"/a", b"r", "denied by rule 3"),
            (twice, b"/a", b"mk", "denied by rule 4"),
            (b"", b"/x", b"rm", "no rule for rm"),
            (b"", b"", b"k", "no rule for k"),
        ],
    )
}

// By rules on append, on write, or on both: images of the first, the third and the fourth profile have version 2.
#[test]
fn worked_verdicts_on_append(rt: HostRuntime) -> Result<(), Fail> {
    let append: &[u8] = b"/log a,";
    let write: &[u8] = b"/log w,";
    let denied: &[u8] = b"/log w, deny /log a,";
    let neither: &[u8] = b"/log a, deny /log w,";
    expect_verdicts(
        &rt,
        rt.alloc(),
        &[
            (append, b"/log", b"a", "allowed"),
            (append, b"/log", b"w", "no rule for w"),
            (append, b"/log", b"aw", "no rule for w"),
            (append, b"/lo", b"wa", "no rule for wa"),
            (write, b"/log", b"wa", "allowed"),
            (write, b"/log", b"a", "allowed"),
            (denied, b"/log", b"w", "allowed"),
            (denied, b"/log", b"wa", "denied by rule 2"),
            (neither, b"/log", b"a", "denied by rule 2"),
            (neither, b"/log", b"wa", "denied by rule 2"),
        ],
    )
}

// A name, the state in which its run ends, and how many steps that takes. Each is one look-up, since no state has a depth.
type Run<'a> = (&'a [u8], u32, u64);

fn expect_runs(rt: &impl Abort, table: &VerifiedTable, runs: &[Run<'_>]) {
    assert_eq!(rt; table.depth_bound(), 0);
    for (name, state, count) in runs {
        let (mut steps, mut lookups) = (Steps::new(), LookUps::new());
        let end = run(table, name, &mut steps, &mut lookups);
        assert!(rt; end == *state && steps.count() == *count, "{name:?}");
        assert!(rt; lookups.count() == u128::from(*count), "{name:?}");
    }
}

#[test]
fn one_step_and_one_look_up_for_each_byte(rt: HostRuntime) -> Result<(), Fail> {
    let compiled = compiled_of(rt.alloc(), PASSWD)?;
    // State 12 is that of the whole name, and state 0 is dead.
    expect_runs(
        &rt,
        compiled.table(),
        &[
            (b"", 1, 0),
            (b"/", 2, 1),
            (b"/etc/passwd", 12, 11),
            (b"/etc/passwd/", 0, 12),
            (b"\0\xff", 0, 2),
        ],
    );
    Ok(())
}
