//! Profiles with the tables that they are compiled to.
ghost use Rattle.std.specs.Prelude.{◌≡◌, ◌≤◌, IfOk, IfErr};
ghost use Rattle.std.specs.Coded.{codes};
ghost use Rattle.glob_automaton.specs.Automata.{most_sets};
ghost use Rattle.glob_automaton.specs.Sets.{AreMoreThan};
ghost use Rattle.names.specs.contracts.record.Record as record_code;
ghost use Rattle.matcher.specs.MakeFaults.{IsMakeFault};
ghost use Rattle.matcher.specs.TableVerdicts.{IsDeadAtZero, IsTableOfRules, TellsLeastHits};
ghost use Rattle.rule_profile.specs.Profile.{profile_value};
ghost use Rattle.tables.specs.Bounds.{InBounds};
ghost use Rattle.tables.specs.Tables.{table_value};

use crate::fault::MakeFault;
use glob_automaton::{compile, names_have_one_least_record};
use rule_profile::Profile;
use std::alloc::Global;
use table_image::{pack, pack_chained};
use table_verifier::{VerifiedTable, verify};
use tables::RawTable;

/// A table of a profile's rules, in bounds, if they haven't too many states. No state has a depth, so version 1 of images can hold
/// it if in each record append has the hits of write.
pub fn table_of(alloc: Global, profile: &Profile) -> Result<RawTable, MakeFault>
    ensures bounds { IfOk result (λ table. InBounds (table_value table)) }
    ensures flat { IfOk result (λ table. table.depth_bound ≡ 0) }
    ensures rules { IfOk result (λ table. IsTableOfRules (profile_value profile.now).rules (table_value table)) }
    ensures few { IfOk result (λ _. ¬ (AreMoreThan most_sets (profile_value profile.now).rules)) }
    ensures err { IfErr result (IsMakeFault (profile_value profile.now).rules) }
{
    names_have_one_least_record();
    let dfa = compile(alloc, profile)?;
    Ok(pack(alloc, &dfa)?)
}

/// A table of a profile's rules, in bounds, if they haven't too many states, with chains of defaults that are at most as deep as
/// asked for. It has fewer cells, and names take more look-ups.
pub fn chained_table_of(
    alloc: Global,
    profile: &Profile,
    most_depth: u16,
) -> Result<RawTable, MakeFault>
    ensures bounds { IfOk result (λ table. InBounds (table_value table)) }
    ensures depth { IfOk result (λ table. table.depth_bound ≤ most_depth) }
    ensures rules { IfOk result (λ table. IsTableOfRules (profile_value profile.now).rules (table_value table)) }
    ensures few { IfOk result (λ _. ¬ (AreMoreThan most_sets (profile_value profile.now).rules)) }
    ensures err { IfErr result (IsMakeFault (profile_value profile.now).rules) }
{
    names_have_one_least_record();
    let dfa = compile(alloc, profile)?;
    Ok(pack_chained(alloc, &dfa, most_depth)?)
}

/// A profile's rules and their table, which leads every name to the least hits of the rules and so gives their verdicts.
#[derive(Drop)]
pub struct CompiledProfile {
    profile: Profile,
    table: VerifiedTable,
    ghost dead: { IsDeadAtZero table } by { Prim.hlevel (codes, record_code.the_row.coded) },
    ghost least: { TellsLeastHits (profile_value profile).rules table } by { Prim.hlevel (codes, record_code.the_row.coded) },
}

impl CompiledProfile {
    /// Compiles a profile, if it hasn't too many states.
    pub fn make(alloc: Global, profile: Profile) -> Result<CompiledProfile, MakeFault>
        ensures profile { IfOk result (λ compiled. compiled.profile ≡ profile) }
        ensures few { IfOk result (λ _. ¬ (AreMoreThan most_sets (profile_value profile).rules)) }
        ensures err { IfErr result (IsMakeFault (profile_value profile).rules) }
    {
        let table = table_of(alloc, &profile)?;
        match verify(table) {
            Ok(table) => Ok(CompiledProfile { profile, table }),
            // A table of rules is in bounds.
            Err(_) => unreachable!(),
        }
    }

    /// The profile.
    pub fn profile(&self) -> &Profile
        ensures { result.now ≡ self.now.profile }
    {
        &self.profile
    }

    /// The table to judge by.
    pub fn table(&self) -> &VerifiedTable
        ensures own { result.now ≡ self.now.table }
        ensures rules { IsTableOfRules (profile_value self.now.profile).rules result.now }
    {
        &self.table
    }
}
