//! Rules as texts.
use profile_questions::CompiledRules;
use rule_reader::{Profile, read};
use std::alloc::Global;
use std::test::Fail;
use test_parts::profile_text;

// The profile of the rules of a text.
fn profile(alloc: Global, rules: &[u8]) -> Result<Profile, Fail> {
    Ok(read(alloc, &profile_text(alloc, rules)?)?)
}

/// The rules of a text, compiled.
pub(crate) fn compiled(alloc: Global, rules: &[u8]) -> Result<CompiledRules, Fail> {
    Ok(CompiledRules::of(alloc, profile(alloc, rules)?)?)
}
