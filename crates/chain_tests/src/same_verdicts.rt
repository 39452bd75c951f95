//! Verdicts of chained tables, next to those of tables without depths and of the plain judge.
ghost use Rattle.tables.specs.Bounds.{InBounds};
ghost use Rattle.tables.specs.Tables.{table_value};

use crate::profiles::chained_of;
use matcher::{chained_table_of, table_of};
use rule_text::{Profile, judge_slow, read};
use std::alloc::Global;
use std::process::Abort;
use std::test::Fail;
use table_image::{RawTable, to_bytes, to_bytes_v1};
use table_verifier::{LoadedProfile, LookUps, Steps, VerifiedTable, judge, record_of_name};
use test_parts::{PROFILE_TEXTS, perms_of};

// A profile, and its tables from images: without depths in version 1 if that can hold them, and chained in version 2.
#[derive(Drop)]
struct Tables {
    profile: Profile,
    flat: LoadedProfile,
    chained: LoadedProfile,
}

fn flat_image(alloc: Global, table: &RawTable) -> Result<Vec<u8>, Fail>
    requires { InBounds (table_value table.now) }
{
    if table.fits_version_1() {
        return Ok(to_bytes_v1(alloc, table)?);
    }
    Ok(to_bytes(alloc, table)?)
}

fn tables_of(alloc: Global, text: &[u8], most: u16) -> Result<Tables, Fail> {
    let profile = read(alloc, text)?;
    let flat = table_of(alloc, &profile)?;
    let flat = flat_image(alloc, &flat)?;
    let chained = chained_table_of(alloc, &profile, most)?;
    let chained = to_bytes(alloc, &chained)?;
    Ok(Tables {
        profile,
        flat: LoadedProfile::make(alloc, &flat)?,
        chained: LoadedProfile::make(alloc, &chained)?,
    })
}

impl Tables {
    // Whether a name has the same record by both tables, in as many steps, and in no fewer look-ups by the chained one.
    fn have_one_record(&self, name: &[u8]) -> bool {
        let (flat, chained) = (self.flat.table(), self.chained.table());
        let _bounds = (flat.depth_bound(), chained.depth_bound());
        let (mut steps, mut lookups) = (Steps::new(), LookUps::new());
        let want = record_of_name(flat, name, &mut steps, &mut lookups);
        let (mut same, mut more) = (Steps::new(), LookUps::new());
        let found = record_of_name(chained, name, &mut same, &mut more);
        found == want && same.count() == steps.count() && more.count() >= lookups.count()
    }

    // Whether the plain judge gives the verdicts of both tables, for every set of permissions but the empty one.
    fn agree(&self, name: &[u8]) -> bool {
        for number in 1..64 {
            let ask = perms_of(number);
            let want = judge_slow(&self.profile, name, ask);
            let is_flat = judge(self.flat.table(), name, ask) == want;
            if !is_flat || judge(self.chained.table(), name, ask) != want {
                return false;
            }
        }
        true
    }
}

const ALPHABET: [u8; 6] = [b'/', b'a', b'b', b'c', 0, 255];

// The list with this number, where lists of these six bytes are numbered in order of their lengths.
fn counted(alloc: Global, number: usize) -> Result<Vec<u8>, Fail> {
    let mut bytes = Vec::new(alloc);
    let mut left = number;
    for _ in 0..8 {
        if left == 0 {
            break;
        }
        bytes.push(ALPHABET[(left - 1) % 6])?;
        left = (left - 1) / 6;
    }
    Ok(bytes)
}

// Numbers that look random: each from the one before (xorshift).
fn drawn(seed: u32) -> u32 {
    let first = seed ^ seed.wrapping_shl(13);
    let second = first ^ first.wrapping_shr(17);
    second ^ second.wrapping_shl(5)
}

// A name of fewer than 64 bytes, most of them of the alphabet, and the next number.
fn drawn_name(alloc: Global, seed: u32) -> Result<(Vec<u8>, u32), Fail> {
    let mut name = b"/".to_vec(alloc)?;
    let mut number = drawn(seed);
    for _ in 0..number % 63 {
        number = drawn(number);
        let letter = ALPHABET[(number as usize / 8) % 6];
        name.push(if number % 8 == 0 {
            (number / 65_536 % 256) as u8
        } else {
            letter
        })?;
    }
    Ok((name, number))
}

// The first names of bytes of the alphabet, in order of their lengths; those of at most three bytes for every set of permissions.
fn expect_short(rt: &impl Abort, alloc: Global, tables: &Tables, count: usize) -> Result<(), Fail> {
    for number in 0..count {
        let name = counted(alloc, number)?;
        assert!(rt; tables.have_one_record(&name), "{name:?}");
        assert!(rt; number >= 259 || tables.agree(&name), "{name:?}");
    }
    Ok(())
}

fn expect_drawn(rt: &impl Abort, alloc: Global, tables: &Tables) -> Result<(), Fail> {
    let mut seed = 1;
    for _ in 0..2_000 {
        let (name, next) = drawn_name(alloc, seed)?;
        seed = next;
        assert!(rt;
            tables.have_one_record(&name) && tables.agree(&name),
            "{name:?}"
        );
    }
    Ok(())
}

// Whether the chained table has a depth, and fewer cells than the one without depths.
fn is_smaller(chained: &VerifiedTable, flat: &VerifiedTable) -> bool {
    chained.depth_bound() > 0 && flat.depth_bound() == 0 && chained.cells() < flat.cells()
}

const DEEP: &[u8] = b"profile p { /**a??? r, }";

// How many cells of a profile's table some state owns.
fn owned(alloc: Global, text: &[u8], most: u16) -> Result<usize, Fail> {
    let table = chained_of(alloc, text, most)?;
    Ok(
        table
            .check
            .iter()
            .filter(|owner| **owner != u32::MAX)
            .count(),
    )
}

#[test]
fn depth_4(rt: HostRuntime) -> Result<(), Fail> {
    let alloc = rt.alloc();
    let tables = tables_of(alloc, DEEP, 4)?;
    assert!(rt; is_smaller(tables.chained.table(), tables.flat.table()));
    assert!(rt; owned(alloc, DEEP, 4)? < owned(alloc, DEEP, 0)?);
    // All names of at most five bytes.
    expect_short(&rt, alloc, &tables, 9_331)?;
    expect_drawn(&rt, alloc, &tables)
}

// All names of at most three bytes.
fn expect_same(rt: &impl Abort, alloc: Global, most: u16) -> Result<(), Fail> {
    for text in &PROFILE_TEXTS {
        let tables = tables_of(alloc, text, most)?;
        expect_short(rt, alloc, &tables, 259)?;
    }
    Ok(())
}

#[test]
fn other_profiles(rt: HostRuntime) -> Result<(), Fail> {
    for most in [1, 64] {
        expect_same(&rt, rt.alloc(), most)?;
    }
    Ok(())
}
