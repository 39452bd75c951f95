//! The targets of every state of a table, over its chains, next to the automaton's.
use crate::profiles::{automaton_of, staircase};
use glob_automaton::Dfa;
use std::alloc::Global;
use std::process::Abort;
use std::test::Fail;
use table_image::{pack_chained, to_bytes};
use table_verifier::{LookUps, Steps, VerifiedImage, VerifiedTable, verify_image};
use test_parts::{PROFILE_TEXTS, verified};

// A table with what it was packed from, and its image.
#[derive(Clone, Copy)]
struct Packed<'a> {
    dfa: &'a Dfa,
    depth: &'a [u32],
    table: &'a VerifiedTable,
    image: &'a VerifiedImage<'a>,
}

impl<'a> Packed<'a> {
    // Whether a byte leads from a state to the state that it leads to in the automaton, in one step, and in one look-up at least and
    // at most one more than the state's depth. It takes as many by the image.
    fn leads_alike(self, state: u32, byte: u8) -> bool {
        let deep = self.table.depth_bound();
        if self.image.depth_bound() != deep
            || state >= self.dfa.states()
            || state >= self.table.states()
            || state >= self.image.states()
        {
            return false;
        }
        let want = self.dfa.target(state, byte);
        let (mut steps, mut lookups) = (Steps::new(), LookUps::new());
        let is_target = self.table.look_up(state, byte, &mut steps, &mut lookups) == want;
        let (mut again, mut by_image) = (Steps::new(), LookUps::new());
        let is_same = self.image.look_up(state, byte, &mut again, &mut by_image) == want;
        let depth = self.depth.get(state as usize).copied().unwrap_or(0);
        let count = lookups.count();
        let is_within = count >= 1 && count <= u128::from(depth) + 1 && depth <= u32::from(deep);
        is_target
            && is_same
            && steps.count() == 1
            && again.count() == 1
            && is_within
            && by_image.count() == count
    }

    // The first state of the automaton of which some byte leads elsewhere in the tables.
    fn first_other_state(self) -> Option<u32> {
        for state in 0..self.dfa.states() {
            if !(0..=255u8).all(|byte| self.leads_alike(state, byte)) {
                return Some(state);
            }
        }
        None
    }
}

fn expect_targets(rt: &impl Abort, alloc: Global, text: &[u8], most: u16) -> Result<(), Fail> {
    let dfa = automaton_of(alloc, text)?;
    let table = pack_chained(alloc, &dfa, most)?;
    let bytes = to_bytes(alloc, &table)?;
    let depth = table.depth.clone()?;
    let table = verified(table)?;
    let image = verify_image(&bytes)?;
    assert!(rt; table.depth_bound() <= most, "{text:?} {most}");
    let packed = Packed {
        dfa: &dfa,
        depth: &depth,
        table: &table,
        image: &image,
    };
    assert!(rt; packed.first_other_state().is_none(), "{text:?} {most}");
    Ok(())
}

#[test]
fn targets(rt: HostRuntime) -> Result<(), Fail> {
    for text in &PROFILE_TEXTS {
        for most in [0, 1, 4, 16, 64] {
            expect_targets(&rt, rt.alloc(), text, most)?;
        }
    }
    Ok(())
}

// Chains of a depth up to 64, and up to 79.
#[test]
fn targets_of_a_staircase(rt: HostRuntime) -> Result<(), Fail> {
    let alloc = rt.alloc();
    let text = staircase(alloc, 80)?;
    for most in [1, 4, 16, 64, u16::MAX] {
        expect_targets(&rt, alloc, &text, most)?;
    }
    Ok(())
}
