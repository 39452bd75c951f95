//! The smallest table with a chain of defaults, in version 2: state 1 has depth 1, and state 2 for its default.

use image_judge::{Answer, Fault};
use names::{Permission, Perms, Record, Verdict};
use std::alloc::Global;
use std::process::Abort;
use std::test::Fail;
use table_image::{ImageFault, RawTable, from_bytes, to_bytes};
use table_verifier::{
    LoadedProfile, LookUps, State, Steps, VerifiedImage, VerifiedTable, judge, judge_image, run,
    run_image, verify_image,
};
use test_parts::{fault_of, is_accepted, smallest_chained_image, three_states_image};

#[test]
fn read(rt: HostRuntime) -> Result<(), Fail> {
    let alloc = rt.alloc();
    let table = from_bytes(alloc, &smallest_chained_image(alloc)?)?;
    assert!(rt; table.default.as_slice() == [0, 2, 0].as_slice());
    assert!(rt; table.base.as_slice() == [0, 0, 0].as_slice());
    assert!(rt; table.accept.as_slice() == [0, 0, 0].as_slice());
    assert!(rt; table.depth.as_slice() == [0, 1, 0].as_slice() && table.depth_bound == 1);
    assert!(rt; table.next == Vec::from_elem(alloc, 0u32, 256)?);
    assert!(rt; table.check == Vec::from_elem(alloc, u32::MAX, 256)?);
    assert!(rt; table.records.as_slice() == [Record::none()].as_slice());
    Ok(())
}

#[test]
fn written_again(rt: HostRuntime) -> Result<(), Fail> {
    let alloc = rt.alloc();
    let image = smallest_chained_image(alloc)?;
    assert_eq!(rt; image.len(), 2_140);
    let again = to_bytes(alloc, &from_bytes(alloc, &image)?)?;
    assert!(rt; again == image);
    Ok(())
}

#[test]
fn counts(rt: HostRuntime) -> Result<(), Fail> {
    let alloc = rt.alloc();
    let bytes = smallest_chained_image(alloc)?;
    let loaded = LoadedProfile::make(alloc, &bytes)?;
    let table = loaded.table();
    let found = (table.states(), table.cells(), table.records());
    assert_eq!(rt; (found, table.depth_bound()), ((3, 256, 1), 1));
    let image = verify_image(&bytes)?;
    let found = (image.states(), image.cells(), image.records());
    assert_eq!(rt; (found, image.depth_bound()), ((3, 256, 1), 1));
    Ok(())
}

// A name, the state that it leads to, and how many steps and look-ups that takes.
type Run<'a> = (&'a [u8], State, u64, u128);

const RUNS: [Run<'static>; 4] = [
    (b"", 1, 0, 0),
    (b"/", 0, 1, 2),
    // From state 0 on, each byte takes one look-up.
    (b"/x", 0, 2, 3),
    (b"\0\xff/etc", 0, 6, 7),
];

fn expect_run(rt: &impl Abort, table: &VerifiedTable, image: &VerifiedImage<'_>, row: &Run<'_>) {
    let (name, state, count, look_ups) = *row;
    assert_eq!(rt; (table.depth_bound(), image.depth_bound()), (1, 1));
    let (mut steps, mut lookups) = (Steps::new(), LookUps::new());
    let end = run(table, name, &mut steps, &mut lookups);
    assert_eq!(rt;
        (end, steps.count(), lookups.count()),
        (state, count, look_ups)
    );
    let (mut steps, mut lookups) = (Steps::new(), LookUps::new());
    let end = run_image(image, name, &mut steps, &mut lookups);
    assert_eq!(rt;
        (end, steps.count(), lookups.count()),
        (state, count, look_ups)
    );
}

#[test]
fn names_run(rt: HostRuntime) -> Result<(), Fail> {
    let alloc = rt.alloc();
    let bytes = smallest_chained_image(alloc)?;
    let loaded = LoadedProfile::make(alloc, &bytes)?;
    let image = verify_image(&bytes)?;
    for row in &RUNS {
        expect_run(&rt, loaded.table(), &image, row);
    }
    Ok(())
}

#[test]
fn names_judged(rt: HostRuntime) -> Result<(), Fail> {
    let alloc = rt.alloc();
    let bytes = smallest_chained_image(alloc)?;
    let ask = Perms::NONE.with(Permission::Read);
    let want = Verdict::NoRule { missing: ask };
    let loaded = LoadedProfile::make(alloc, &bytes)?;
    assert_eq!(rt; judge(loaded.table(), b"/x", ask), want);
    let image = verify_image(&bytes)?;
    let mut steps = Steps::new();
    assert_eq!(rt; judge_image(&image, b"/x", ask, &mut steps), want);
    assert_eq!(rt; steps.count(), 2);
    Ok(())
}

/// An answer that each call must overwrite.
pub(crate) const STALE: Answer = Answer {
    steps: 9,
    verdict: 9,
    rule: 9,
    missing: 9,
};

// What callers in C see: the steps are bytes, and the look-ups are not counted.
#[test]
fn names_judged_for_c(rt: HostRuntime) -> Result<(), Fail> {
    let image = smallest_chained_image(rt.alloc())?;
    let image = &image[..];
    assert!(rt; is_accepted(image));
    let mut answer = STALE;
    image_judge::judge(image, b"/x", 1, &mut answer);
    let want = Answer {
        steps: 2,
        verdict: 3,
        rule: 0,
        missing: 1,
    };
    assert_eq!(rt; answer, want);
    Ok(())
}

// Defaults and depths, and the fault that is reported for them, if any. No depth may be over 1.
type Depths = ([u32; 3], [u32; 3], Option<ImageFault>);

const DEPTHS: [Depths; 13] = [
    ([0, 2, 0], [0, 1, 0], None),
    ([0, 0, 0], [0, 1, 0], None),
    ([0, 2, 0], [0, 0, 1], None),
    ([1, 2, 0], [0, 1, 0], None),
    // Over the bound.
    ([0, 2, 0], [0, 2, 0], Some(ImageFault::Depth { state: 1 })),
    ([0, 2, 0], [0, 0, 2], Some(ImageFault::Depth { state: 2 })),
    (
        [0, 2, 0],
        [u32::MAX, 1, 0],
        Some(ImageFault::Depth { state: 0 }),
    ),
    // Not over the depth of the default.
    ([0, 2, 0], [0, 1, 1], Some(ImageFault::Depth { state: 1 })),
    ([0, 1, 0], [0, 1, 0], Some(ImageFault::Depth { state: 1 })),
    ([1, 2, 0], [1, 1, 0], Some(ImageFault::Depth { state: 0 })),
    // Of two faults the earlier one.
    (
        [0, 2, 0],
        [0, 1, u32::MAX],
        Some(ImageFault::Depth { state: 1 }),
    ),
    ([0, 2, 0], [0, 2, 2], Some(ImageFault::Depth { state: 1 })),
    ([0, 2, 3], [2, 1, 0], Some(ImageFault::Default { state: 2 })),
];

fn expect_fault(rt: &impl Abort, alloc: Global, row: &Depths) -> Result<(), Fail> {
    let (default, depth, want) = *row;
    let image = three_states_image(alloc, default, depth)?;
    assert_eq!(rt; fault_of(from_bytes(alloc, &image)?), want);
    assert_eq!(rt; LoadedProfile::make(alloc, &image).err(), want);
    assert_eq!(rt; verify_image(&image).err(), want);
    Ok(())
}

#[test]
fn faults(rt: HostRuntime) -> Result<(), Fail> {
    for row in &DEPTHS {
        expect_fault(&rt, rt.alloc(), row)?;
    }
    Ok(())
}

#[test]
fn faults_for_c(rt: HostRuntime) -> Result<(), Fail> {
    let image = three_states_image(rt.alloc(), [0, 2, 0], [0, 1, 1])?;
    let want = Fault {
        number: 12,
        place: 1,
    };
    assert_eq!(rt; image_judge::verify(&image), want);
    Ok(())
}
