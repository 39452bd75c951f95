//! The layout of tables next to that of a packer that chooses and searches in the simplest way.
use crate::profiles::{automaton_of, chained_of, staircase};
use glob_automaton::Dfa;
use std::alloc::Global;
use std::process::Abort;
use std::test::Fail;
use table_image::{RawTable, pack, pack_chained};
use test_parts::{PROFILE_TEXTS, put};

// How many of the states numbered just before a state are tried.
const NEAR: usize = 64;

// For each byte where a state leads.
type Targets = [u32; 256];

// The default of a state, and its depth.
#[derive(Clone, Copy)]
struct Choice {
    default: u32,
    depth: u32,
}

// How many bytes lead to each state.
fn counts_of(alloc: Global, targets: &Targets, states: usize) -> Result<Vec<u32>, Fail> {
    let mut counts = Vec::from_elem(alloc, 0u32, states)?;
    for target in targets {
        if let Some(count) = counts.get_mut(*target as usize) {
            *count = count.saturating_add(1);
        }
    }
    Ok(counts)
}

// The target that the most bytes have, the least among equals.
fn commonest(alloc: Global, targets: &Targets, states: usize) -> Result<u32, Fail> {
    let mut best = 0;
    let mut most = 0;
    for (target, count) in counts_of(alloc, targets, states)?.iter().enumerate() {
        if *count > most {
            best = target;
            most = *count;
        }
    }
    Ok(u32::try_from(best).unwrap_or(u32::MAX))
}

// How many bytes have another target.
fn differing(targets: &Targets, without: &Targets) -> u32 {
    let mut count = 0u32;
    for (target, other) in targets.iter().zip(without) {
        if *target != *other {
            count = count.saturating_add(1);
        }
    }
    count
}

// The choice with the fewest cells: the commonest target, or the first of the states before that is strictly better.
fn choice_of(rows: &[Targets], depths: &[u32], targets: &Targets, flat: u32, most: u16) -> Choice {
    let mut best = Choice {
        default: flat,
        depth: 0,
    };
    let mut fewest = differing(targets, &[flat; 256]);
    let first = depths.len().saturating_sub(NEAR);
    for (near, (row, depth)) in rows.iter().zip(depths).enumerate().skip(first) {
        let cells = differing(targets, row);
        if *depth < u32::from(most) && cells < fewest {
            fewest = cells;
            best = Choice {
                default: u32::try_from(near).unwrap_or(u32::MAX),
                depth: depth.saturating_add(1),
            };
        }
    }
    best
}

// Where a byte without a cell leads, for each byte.
fn without_cells(rows: &[Targets], choice: Choice) -> Targets {
    match rows.get(choice.default as usize) {
        Some(row) if choice.depth > 0 => *row,
        _ => [choice.default; 256],
    }
}

// The bytes that need a cell.
fn others(alloc: Global, targets: &Targets, without: &Targets) -> Result<Vec<usize>, Fail> {
    let mut bytes = Vec::new(alloc);
    for (byte, (target, other)) in targets.iter().zip(without).enumerate() {
        if *target != *other {
            bytes.push(byte)?;
        }
    }
    Ok(bytes)
}

// Whether none of the cells of these bytes at a base is owned.
fn fits(check: &[u32], bytes: &[usize], base: usize) -> bool {
    for byte in bytes {
        let owner = check.get(base.saturating_add(*byte)).copied();
        if owner.is_some() && owner != Some(u32::MAX) {
            return false;
        }
    }
    true
}

// The least base at which these bytes fit.
fn base_for(check: &[u32], bytes: &[usize]) -> usize {
    for base in 0..check.len() {
        if fits(check, bytes, base) {
            return base;
        }
    }
    check.len()
}

// Adds a state's base, and the cells of these bytes.
fn push_row(table: &mut RawTable, targets: &Targets, bytes: &[usize]) -> Result<(), Fail> {
    let base = base_for(&table.check, bytes);
    let cells = base.saturating_add(256);
    if table.next.len() < cells {
        table.next.resize(cells, 0)?;
        table.check.resize(cells, u32::MAX)?;
    }
    let state = u32::try_from(table.base.len()).unwrap_or(u32::MAX);
    for byte in bytes {
        let cell = base.saturating_add(*byte);
        put(
            &mut table.next,
            cell,
            targets.get(*byte).copied().unwrap_or(0),
        );
        put(&mut table.check, cell, state);
    }
    table.base.push(u32::try_from(base).unwrap_or(u32::MAX))?;
    Ok(())
}

// Adds a state's default and depth.
fn push_choice(table: &mut RawTable, choice: Choice) -> Result<(), Fail> {
    table.default.push(choice.default)?;
    table.depth.push(choice.depth)?;
    let depth = u16::try_from(choice.depth).unwrap_or(u16::MAX);
    table.depth_bound = table.depth_bound.max(depth);
    Ok(())
}

// The defaults, depths, bases and cells of an automaton's tables.
fn packed(alloc: Global, dfa: &Dfa, most: u16) -> Result<RawTable, Fail> {
    let mut table = RawTable {
        default: Vec::new(alloc),
        base: Vec::new(alloc),
        accept: Vec::new(alloc),
        next: Vec::new(alloc),
        check: Vec::new(alloc),
        records: Vec::new(alloc),
        depth_bound: 0,
        depth: Vec::new(alloc),
    };
    let last = dfa.states() - 1;
    let mut rows = Vec::new(alloc);
    for state in 0..dfa.states().max(2) {
        let targets = dfa.targets(state.min(last));
        let flat = commonest(alloc, &targets, dfa.states() as usize)?;
        let choice = choice_of(&rows, &table.depth, &targets, flat, most);
        let bytes = others(alloc, &targets, &without_cells(&rows, choice))?;
        push_row(&mut table, &targets, &bytes)?;
        push_choice(&mut table, choice)?;
        rows.push(targets)?;
    }
    Ok(table)
}

fn are_laid_out_alike(one: &RawTable, other: &RawTable) -> bool {
    one.default == other.default
        && one.base == other.base
        && one.next == other.next
        && one.check == other.check
        && one.depth_bound == other.depth_bound
        && one.depth == other.depth
}

fn expect_packed(rt: &impl Abort, alloc: Global, text: &[u8], most: u16) -> Result<(), Fail> {
    let dfa = automaton_of(alloc, text)?;
    let want = packed(alloc, &dfa, most)?;
    let table = pack_chained(alloc, &dfa, most)?;
    assert!(rt; are_laid_out_alike(&table, &want), "{text:?} {most}");
    // Records are numbered without regard to depths.
    let flat = pack(alloc, &dfa)?;
    let has_records = table.accept == flat.accept && table.records == flat.records;
    assert!(rt; has_records, "{text:?} {most}");
    let is_flat = are_laid_out_alike(&table, &flat);
    assert!(rt; most > 0 || is_flat, "{text:?}");
    Ok(())
}

fn expect_all_packed(rt: &impl Abort, alloc: Global, depths: &[u16]) -> Result<(), Fail> {
    for text in &PROFILE_TEXTS {
        for most in depths {
            expect_packed(rt, alloc, text, *most)?;
        }
    }
    Ok(())
}

#[test]
fn naive_packer_of_no_depth(rt: HostRuntime) -> Result<(), Fail> {
    expect_all_packed(&rt, rt.alloc(), &[0])
}

#[test]
fn naive_packer_of_small_depths(rt: HostRuntime) -> Result<(), Fail> {
    expect_all_packed(&rt, rt.alloc(), &[1, 2, 4])
}

#[test]
fn naive_packer_of_great_depths(rt: HostRuntime) -> Result<(), Fail> {
    expect_all_packed(&rt, rt.alloc(), &[16, 64, u16::MAX])
}

// Chains deeper than the number of states that are tried; and states before which all of those tried have the greatest depth.
#[test]
fn naive_packer_of_a_staircase(rt: HostRuntime) -> Result<(), Fail> {
    let alloc = rt.alloc();
    let text = staircase(alloc, 80)?;
    for most in [0, 1, 2, 16, 64, u16::MAX] {
        expect_packed(&rt, alloc, &text, most)?;
    }
    Ok(())
}

// The bound of the tables of a profile's text, by the greatest depth that is asked for.
fn expect_bounds(
    rt: &impl Abort,
    alloc: Global,
    text: &[u8],
    rows: &[(u16, u16)],
) -> Result<(), Fail> {
    for (most, want) in rows {
        let table = chained_of(alloc, text, *most)?;
        assert_eq!(rt; table.depth_bound, *want, "{text:?} {most}");
    }
    Ok(())
}

#[test]
fn bounds(rt: HostRuntime) -> Result<(), Fail> {
    let alloc = rt.alloc();
    expect_bounds(&rt, alloc, b"profile p { }", &[(0, 0), (64, 0)])?;
    let text = b"profile p { /{usr/,}lib{,32,64}/**.so* rm, deny /usr/lib/*/secret r, }";
    expect_bounds(&rt, alloc, text, &[(0, 0), (1, 1), (2, 2), (4, 2), (64, 2)])?;
    let text = staircase(alloc, 8)?;
    expect_bounds(
        &rt,
        alloc,
        &text,
        &[(0, 0), (1, 1), (4, 4), (6, 6), (7, 7), (64, 7)],
    )?;
    let text = staircase(alloc, 80)?;
    expect_bounds(
        &rt,
        alloc,
        &text,
        &[(0, 0), (1, 1), (64, 64), (65, 65), (u16::MAX, 79)],
    )
}
