//! Long chains of defaults: how many look-ups a byte takes, up to one more than the greatest bound.
use names::Record;
use std::alloc::Global;
use std::process::Abort;
use std::test::Fail;
use table_image::{ImageFault, RawTable};
use table_verifier::{
    LookUps, State, Steps, VerifiedImage, VerifiedTable, run, run_image, verify, verify_image,
};
use test_parts::{image_of_table, put, verified};

// A chain from state 1 to the last one: each has the next one for its default, and one depth more than that. The last has no depth,
// and leads to state 0, which is dead. All share one row, in which each owns the cell of the byte with its number, if there is one,
// and that leads to the state itself.
#[derive(Clone, Copy, Debug)]
struct Chain {
    last: u32,
    bound: u16,
}

impl Chain {
    fn default_of(self, state: u32) -> u32 {
        if state == 0 || state >= self.last {
            0
        } else {
            state.saturating_add(1)
        }
    }

    fn depth_of(self, state: u32) -> u32 {
        if state == 0 {
            0
        } else {
            self.last.saturating_sub(state)
        }
    }

    // The state that owns the cell of a byte.
    fn owner_of(self, byte: u32) -> Option<u32> {
        if byte == 0 || byte > self.last {
            None
        } else {
            Some(byte)
        }
    }

    fn table(self, alloc: Global) -> Result<RawTable, Fail> {
        let states = (self.last as usize).saturating_add(1);
        let mut table = RawTable {
            default: Vec::new(alloc),
            base: Vec::from_elem(alloc, 0, states)?,
            accept: Vec::from_elem(alloc, 0, states)?,
            next: Vec::new(alloc),
            check: Vec::new(alloc),
            records: Vec::from_elem(alloc, Record::none(), 1)?,
            depth_bound: self.bound,
            depth: Vec::new(alloc),
        };
        for state in 0..self.last.saturating_add(1) {
            table.default.push(self.default_of(state))?;
            table.depth.push(self.depth_of(state))?;
        }
        for byte in 0..256u32 {
            let owner = self.owner_of(byte);
            table.next.push(owner.unwrap_or(0))?;
            table.check.push(owner.unwrap_or(u32::MAX))?;
        }
        Ok(table)
    }

    // The state after a state and a byte, and how many look-ups that takes.
    fn after(self, state: State, byte: u8) -> (State, u32) {
        let owner = self.owner_of(u32::from(byte));
        match owner {
            _ if state == 0 => (0, 1),
            Some(owner) if state <= owner => (owner, owner.saturating_sub(state).saturating_add(1)),
            _ => (0, self.last.saturating_sub(state).saturating_add(1)),
        }
    }

    // The state after a name, and how many look-ups that takes.
    fn after_name(self, name: &[u8]) -> (State, u128) {
        let mut state = 1;
        let mut count = 0u128;
        for byte in name {
            let (next, look_ups) = self.after(state, *byte);
            state = next;
            count = count.saturating_add(u128::from(look_ups));
        }
        (state, count)
    }
}

// A name leads through the table and through its image where it leads by hand, in as many look-ups, and in a step for each byte.
fn expect_name(
    rt: &impl Abort,
    chain: Chain,
    table: &VerifiedTable,
    image: &VerifiedImage<'_>,
    name: &[u8],
) {
    let (state, count) = chain.after_name(name);
    let want = (state, name.len() as u64, count);
    assert_eq!(rt;
        (table.depth_bound(), image.depth_bound()),
        (chain.bound, chain.bound)
    );
    let (mut steps, mut lookups) = (Steps::new(), LookUps::new());
    let end = run(table, name, &mut steps, &mut lookups);
    assert_eq!(rt; (end, steps.count(), lookups.count()), want);
    let (mut steps, mut lookups) = (Steps::new(), LookUps::new());
    let end = run_image(image, name, &mut steps, &mut lookups);
    assert_eq!(rt; (end, steps.count(), lookups.count()), want);
}

// Every byte by itself leads where it leads by hand, and so do names of more bytes.
fn expect_chain(rt: &impl Abort, alloc: Global, chain: Chain) -> Result<(), Fail> {
    let table = chain.table(alloc)?;
    let bytes = image_of_table(alloc, &table, 2)?;
    let table = verified(table)?;
    let image = verify_image(&bytes)?;
    for byte in 0..=255u8 {
        expect_name(rt, chain, &table, &image, &[byte]);
        expect_name(rt, chain, &table, &image, &[1, byte, 40, byte, 64]);
    }
    expect_name(rt, chain, &table, &image, b"");
    expect_name(
        rt,
        chain,
        &table,
        &image,
        b"\x01\x01\x02\x03\x05\x08\x0d\x15\x22\x37\x41\x41\0AA",
    );
    Ok(())
}

#[test]
fn chains(rt: HostRuntime) -> Result<(), Fail> {
    let alloc = rt.alloc();
    for last in [1, 2, 3, 5, 65, 66, 255, 256, 1_000] {
        let bound = u16::try_from(last - 1).unwrap_or(u16::MAX);
        expect_chain(&rt, alloc, Chain { last, bound })?;
        // The bound may be over every depth.
        expect_chain(
            &rt,
            alloc,
            Chain {
                last,
                bound: u16::MAX,
            },
        )?;
    }
    Ok(())
}

// A chain of depth 64, in which a byte without a cell takes 65 look-ups.
#[test]
fn chain_of_64(rt: HostRuntime) -> Result<(), Fail> {
    let alloc = rt.alloc();
    let table = verified(Chain {
        last: 65,
        bound: 64,
    }
    .table(alloc)?)?;
    assert_eq!(rt; table.depth_bound(), 64);
    let (mut steps, mut lookups) = (Steps::new(), LookUps::new());
    let end = run(&table, b"\0", &mut steps, &mut lookups);
    assert_eq!(rt; (end, steps.count(), lookups.count()), (0, 1, 65));
    Ok(())
}

// As many states as there may be, in one chain: from state 0, which has the greatest depth of all, a byte takes 65,536 look-ups.
#[test]
fn longest_chain(rt: HostRuntime) -> Result<(), Fail> {
    let alloc = rt.alloc();
    let chain = Chain {
        last: 65_535,
        bound: u16::MAX,
    };
    let mut table = chain.table(alloc)?;
    put(&mut table.default, 0, 1);
    put(&mut table.depth, 0, 65_535);
    let table = verified(table)?;
    assert_eq!(rt; (table.states(), table.depth_bound()), (65_536, u16::MAX));
    let (mut steps, mut lookups) = (Steps::new(), LookUps::new());
    let end = table.look_up(0, 0, &mut steps, &mut lookups);
    assert_eq!(rt; (end, steps.count(), lookups.count()), (0, 1, 65_536));
    // Three bytes lead from state 1 to 0, and there again and again.
    let (mut steps, mut lookups) = (Steps::new(), LookUps::new());
    let end = run(&table, b"\0\0\0", &mut steps, &mut lookups);
    assert_eq!(rt; (end, steps.count(), lookups.count()), (0, 3, 196_607));
    Ok(())
}

// Which number of a state is another one.
#[derive(Clone, Copy, Debug)]
enum Altered {
    Default,
    Depth,
}

// The chain of 64 with another number is refused, as a table and as an image, for the depth of a state.
fn expect_too_deep(
    rt: &impl Abort,
    alloc: Global,
    altered: Altered,
    place: usize,
    number: u32,
    state: u32,
) -> Result<(), Fail> {
    let mut table = Chain {
        last: 65,
        bound: 64,
    }
    .table(alloc)?;
    match altered {
        Altered::Default => put(&mut table.default, place, number),
        Altered::Depth => put(&mut table.depth, place, number),
    }
    let image = image_of_table(alloc, &table, 2)?;
    let want = Some(ImageFault::Depth { state });
    assert_eq!(rt; verify_image(&image).err(), want, "{altered:?} {place}");
    match verify(table) {
        Ok(_) => Err(Fail::from("accepted")),
        Err((fault, _)) => {
            assert_eq!(rt; Some(fault), want, "{altered:?} {place}");
            Ok(())
        }
    }
}

#[test]
fn chains_that_do_not_fall(rt: HostRuntime) -> Result<(), Fail> {
    let alloc = rt.alloc();
    // State 64 would have no depth, which falls to any other.
    for state in 1..64u32 {
        let depth = 64 - state;
        expect_too_deep(&rt, alloc, Altered::Depth, state as usize, depth, state)?;
    }
    for state in 1..65u32 {
        let place = state as usize;
        // Its default as deep as the state.
        expect_too_deep(&rt, alloc, Altered::Depth, place + 1, 65 - state, state)?;
        // Back to itself, and to the start.
        expect_too_deep(&rt, alloc, Altered::Default, place, state, state)?;
        expect_too_deep(&rt, alloc, Altered::Default, place, 1, state)?;
    }
    Ok(())
}

// A depth is compared with the bound as a number of four bytes.
#[test]
fn depths_over_the_bound(rt: HostRuntime) -> Result<(), Fail> {
    let alloc = rt.alloc();
    for depth in [65, 66, 255, 256, 65_536, 65_600, 1 << 24, u32::MAX] {
        expect_too_deep(&rt, alloc, Altered::Depth, 1, depth, 1)?;
    }
    let mut table = Chain {
        last: 2,
        bound: u16::MAX,
    }
    .table(alloc)?;
    put(&mut table.depth, 1, 65_536);
    let image = image_of_table(alloc, &table, 2)?;
    assert_eq!(rt;
        verify_image(&image).err(),
        Some(ImageFault::Depth { state: 1 })
    );
    Ok(())
}
