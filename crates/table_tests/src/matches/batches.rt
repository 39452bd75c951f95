//! Many names side by side, next to each name by itself.
use super::*;
use table_batches::{are_offsets, run_names, run_names_by_image};
use table_verifier::{State, verify_image};

// Names in one text, each from an offset to the next.
#[derive(Drop)]
struct Names {
    text: Vec<u8>,
    offsets: Vec<usize>,
}

// Names of different lengths, some of no bytes.
const NAMES: [&[u8]; 9] = [
    b"/etc/passwd",
    b"",
    b"/usr/lib/deep/er/still/library.so",
    b"/etc/passwd.lock",
    b"/",
    b"/usr/lib/a.so",
    b"\0\xff",
    b"/usr/share/doc/with/a/longer/name/than/all/of/the/others/here",
    b"/etc/shadow",
];

// This number of names, in an order of their own.
fn names_of(alloc: Global, count: usize) -> Result<Names, Fail> {
    let mut names = Names {
        text: Vec::new(alloc),
        offsets: Vec::new(alloc),
    };
    names.offsets.push(0)?;
    for i in 0..count {
        let name = NAMES.get(i % 7 * 5 % 9).ok_or("no such name")?;
        names.text.extend_from_slice(name)?;
        names.offsets.push(names.text.len())?;
    }
    Ok(names)
}

// The name from an offset to the next.
fn name_at(names: &Names, i: usize) -> Result<&[u8], Fail> {
    let begin = *names.offsets.get(i).ok_or("no offset")?;
    let end = *names.offsets.get(i.saturating_add(1)).ok_or("no offset")?;
    Ok(names.text.get(begin..end).ok_or("no name")?)
}

// States that each run must overwrite.
fn stale(alloc: Global, count: usize) -> Result<Vec<State>, Fail> {
    let mut states = Vec::new(alloc);
    states.resize(count, 9)?;
    Ok(states)
}

// Each name leads to the state that it leads to by itself, and each of their bytes is looked up once, by the table and by its image.
fn expect_same(
    rt: &impl Abort,
    alloc: Global,
    compiled: &CompiledProfile,
    count: usize,
) -> Result<(), Fail> {
    let names = names_of(alloc, count)?;
    let text = &names.text[..];
    let offsets = &names.offsets[..];
    let mut states = stale(alloc, count)?;
    let mut by_image = stale(alloc, count)?;
    assert!(rt; are_offsets(text, offsets, states.len()));
    let table = compiled.table();
    assert_eq!(rt; table.depth_bound(), 0);
    let (mut steps, mut lookups) = (Steps::new(), LookUps::new());
    run_names(table, text, offsets, &mut states, &mut steps, &mut lookups);
    let counts = (text.len() as u64, text.len() as u128);
    assert_eq!(rt; (steps.count(), lookups.count()), counts);
    let image = image_of(alloc, compiled.profile())?;
    let image = verify_image(&image)?;
    assert!(rt; are_offsets(text, offsets, by_image.len()));
    assert_eq!(rt; image.depth_bound(), 0);
    let (mut steps, mut lookups) = (Steps::new(), LookUps::new());
    run_names_by_image(
        &image,
        text,
        offsets,
        &mut by_image,
        &mut steps,
        &mut lookups,
    );
    assert_eq!(rt; (steps.count(), lookups.count()), counts);
    assert!(rt; states == by_image);
    for i in 0..count {
        let name = name_at(&names, i)?;
        let state = run(table, name, &mut Steps::new(), &mut LookUps::new());
        assert_eq!(rt; states.get(i), Some(&state), "{count} names, {i}");
    }
    Ok(())
}

#[test]
fn names_side_by_side_lead_where_each_leads(rt: HostRuntime) -> Result<(), Fail> {
    let alloc = rt.alloc();
    let compiled = compiled_of(
        alloc,
        b"/etc/passwd r, /usr/lib/**.so rm, deny /usr/share/** w, /etc/* w,",
    )?;
    for count in [0, 1, 7, 8, 9, 15, 16, 17, 63, 64, 300] {
        expect_same(&rt, alloc, &compiled, count)?;
    }
    Ok(())
}

#[test]
fn offsets_are_tested(rt: HostRuntime) -> Result<(), Fail> {
    assert!(rt; are_offsets(b"abc", &[0, 1, 3], 2));
    assert!(rt; are_offsets(b"abc", &[3], 0));
    assert!(rt; !are_offsets(b"abc", &[], 0));
    assert!(rt; !are_offsets(b"abc", &[4], 0));
    assert!(rt; !are_offsets(b"abc", &[0, 1, 3], 1));
    assert!(rt; !are_offsets(b"abc", &[0, 1, 3], 3));
    assert!(rt; !are_offsets(b"abc", &[0, 2, 1], 2));
    assert!(rt; !are_offsets(b"abc", &[0, 1, 4], 2));
    Ok(())
}
