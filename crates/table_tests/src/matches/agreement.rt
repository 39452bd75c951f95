//! Compiled profiles, loaded ones and the plain judge, over all short names and all sets of permissions.
use super::*;
use rule_text::judge_slow;
use test_parts::perms_of;

// The list with this number, where lists of these six bytes are numbered in order of their lengths.
fn counted(alloc: Global, alphabet: [u8; 6], number: usize) -> Result<Vec<u8>, Fail> {
    let mut bytes = Vec::new(alloc);
    let mut left = number;
    for _ in 0..8 {
        if left == 0 {
            break;
        }
        bytes.push(alphabet[(left - 1) % 6])?;
        left = (left - 1) / 6;
    }
    Ok(bytes)
}

// Whether the plain judge and both tables give the same verdicts on a name, for every set of permissions but the empty one.
fn agree(compiled: &CompiledProfile, loaded: &VerifiedTable, name: &[u8]) -> bool {
    for number in 1..64 {
        let ask = perms_of(number);
        let want = judge_slow(compiled.profile(), name, ask);
        if judge(compiled.table(), name, ask) != want || judge(loaded, name, ask) != want {
            return false;
        }
    }
    true
}

// Whether they agree on each name of at most three bytes.
fn agree_on_short_names(
    alloc: Global,
    compiled: &CompiledProfile,
    loaded: &VerifiedTable,
    alphabet: [u8; 6],
) -> Result<bool, Fail> {
    // One empty list, 6 of one byte, 36 of two and 216 of three.
    for number in 0..259 {
        let name = counted(alloc, alphabet, number)?;
        if !agree(compiled, loaded, &name) {
            return Ok(false);
        }
    }
    Ok(true)
}

// Whether a compiled profile, the one loaded from its image and the plain judge agree on short names.
fn agrees_with_loaded(alloc: Global, compiled: &CompiledProfile) -> Result<bool, Fail> {
    let loaded = loaded_of(alloc, compiled)?;
    let alphabet = [b'/', b'a', b'b', b'k', 0, 255];
    agree_on_short_names(alloc, compiled, loaded.table(), alphabet)
}

fn expect_agreement(rt: &impl Abort, alloc: Global, rules: &[u8]) -> Result<(), Fail> {
    let compiled = compiled_of(alloc, rules)?;
    assert!(rt; agrees_with_loaded(alloc, &compiled)?, "{rules:?}");
    Ok(())
}

fn expect_agreements(rt: &impl Abort, alloc: Global, rows: &[&[u8]]) -> Result<(), Fail> {
    for rules in rows {
        expect_agreement(rt, alloc, rules)?;
    }
    Ok(())
}

#[test]
fn short_names(rt: HostRuntime) -> Result<(), Fail> {
    expect_agreements(
        &rt,
        rt.alloc(),
        &[
            b"",
            b"/a rwlkm, deny /ab w,",
            b"/ r, /a rw, /aa m, deny /ab w, /b lk,",
            b"/** rw, deny /k* w, deny /?a m, /*/ l,",
            b"/* r, deny /** k, /[ab] w, /[^a] lm, deny /k r,",
            b"/{a,b,}{k,} rw, deny /{a,}b m, /a m, /[\x80-\xff]* k,",
            b"deny /** rwlkm, /a r,",
            b"/a rlkma, /** w, deny /ab a, /k a,",
            b"/** a, deny /a* w, deny /?k a, /b rw,",
        ],
    )
}
