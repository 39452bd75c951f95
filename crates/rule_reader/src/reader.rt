//! Reading a profile text, from left to right.
ghost use Rattle.std.specs.Prelude.{◌≡◌, ◌⊎◌, IfOk, IfErr, MatchResult, Ok, Err};
ghost use Rattle.rule_profile.specs.Profile.{ProfileValue, profile_value};
ghost use Rattle.rule_reader.specs.Grammar.{ReadsAs};
ghost use Rattle.rule_reader.specs.ReadSteps.{fault_of};
ghost use Rattle.rule_reader.specs.ReadText.{outcome_of};
ghost use Rattle.rule_reader.specs.ReadFaults.{FaultsAs};
ghost use Rattle.rule_profile.specs.RuleSpans.{profile_spans};
ghost use Rattle.rule_reader.specs.Spans.{spans_of};

mod builder;
mod bytes;
mod class;
mod header;
mod laws;
mod local_fault;
mod name;
mod path;
mod rules;
mod text;
mod words;

use self::local_fault::{Failure, FaultKind, LocalFault};
use self::text::text_of;
use crate::fault::ReadFault;
pub use laws::{one_outcome, profiles_can_be_read, settled_faults_stay, spans_are_read_again};
pub use path::read_path;
use rule_profile::Profile;
use std::alloc::Global;

/// A local fault as a fault of a text of `len` bytes.
fn fault_of(len: usize, fault: LocalFault) -> ReadFault
    ensures { result ≡ fault_of len fault }
{
    let offset = len.saturating_sub(fault.left);
    match fault.kind {
        FaultKind::Syntax => ReadFault::Syntax { offset },
        FaultKind::LeftOut(len) => ReadFault::LeftOut { offset, len },
        FaultKind::Permission => ReadFault::Permission { offset },
        FaultKind::EmptyPermissions => ReadFault::EmptyPermissions { offset },
        FaultKind::NotAbsolute => ReadFault::NotAbsolute { offset },
        FaultKind::Class => ReadFault::Class { offset },
        FaultKind::Group => ReadFault::Group { offset },
        FaultKind::Depth => ReadFault::Depth { offset },
        FaultKind::TooManyRules => ReadFault::TooManyRules { offset },
        FaultKind::TooManyItems => ReadFault::TooManyItems { offset },
        FaultKind::Conflict => ReadFault::Conflict { offset },
    }
}

/// Reads a profile text. If the text is no profile, returns its first fault.
pub fn read(alloc: Global, text: &[u8]) -> Result<Profile, ReadFault>
    // What is read is in the grammar.
    ensures found { IfOk result (λ p. ReadsAs text.now (profile_value p)) }
    // What is in the grammar is read, unless memory runs out.
    ensures only { (p : ProfileValue) → ReadsAs text.now p
        → MatchResult result (λ q. profile_value q ≡ p) (λ e. e ≡ ReadFault.NoMemory) }
    // A fault is the one at which reading from left to right stops first.
    ensures fault { IfErr result (λ e. (e ≡ ReadFault.NoMemory) ⊎ FaultsAs text.now e) }
    // The same in one clause: the outcome of reading the text.
    ensures outcome { MatchResult result (λ p. outcome_of text.now ≡ Ok (profile_value p))
        (λ e. (e ≡ ReadFault.NoMemory) ⊎ (outcome_of text.now ≡ Err e)) }
    // Where its rules are in the text.
    ensures spans { IfOk result (λ p. profile_spans p ≡ spans_of text.now) }
{
    match text_of(alloc, text) {
        Ok(profile) => Ok(profile),
        Err(Failure::NoMemory) => Err(ReadFault::NoMemory),
        Err(Failure::At(fault)) => Err(fault_of(text.len(), fault)),
    }
}
