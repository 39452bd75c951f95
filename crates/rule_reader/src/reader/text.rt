//! A whole text.
ghost use Rattle.std.specs.Prelude.{◌≡◌, IfOk};
ghost use Rattle.rule_profile.specs.Profile.{profile_value};
ghost use Rattle.rule_reader.specs.inner.Gives.{Gives};
ghost use Rattle.rule_reader.specs.ReadText.{text_at};
ghost use Rattle.rule_profile.specs.RuleSpans.{profile_spans};
ghost use Rattle.rule_reader.specs.Spans.{spans_of};

use super::header::header_of;
use super::local_fault::{Failure, FaultKind, fault_here};
use super::rules::rules_of;
use super::words::after_blank;
use rule_profile::Profile;
use std::alloc::Global;

#[tactic(auto, unfolding(crate::specs::ReadText::text_at))]
pub(crate) fn text_of(alloc: Global, bytes: &[u8]) -> Result<Profile, Failure>
    ensures gives { Gives profile_value result (text_at bytes.now) }
    ensures spans { IfOk result (λ p. profile_spans p ≡ spans_of bytes.now) }
{
    let (name, rest) = header_of(after_blank(bytes)?)?;
    let (rules, rest) = rules_of(alloc, bytes.len(), after_blank(rest)?)?;
    let rest = after_blank(rest)?;
    if !rest.is_empty() {
        return Err(fault_here(FaultKind::Syntax, rest));
    }
    let name = Vec::from_slice(alloc, name)?;
    Ok(Profile::new(name, rules))
}
