//! The scope of a text.
ghost use Rattle.std.specs.Prelude.{◌≡◌, IfOk, IfErr, IsTrue, Some, None};
ghost use Rattle.rule_globs.specs.Each.{Each};
ghost use Rattle.import_scope.specs.Scopes.{at_start, can_be_said};
ghost use Rattle.import_scope.specs.FirstFaults.{FirstFault};
ghost use Rattle.import_scope.specs.Overrides.{declared_by, items_given};
ghost use Rattle.import_scope.specs.Told.{TellsFault};

use crate::asked_paths::first_problem;
use crate::assigned::Define;
use crate::fault::ScopeFailure;
use crate::head::ProfileHead;
use crate::outline::{Outline, outline_of};
use apparmor_text::Item;
use apparmor_variables::Variable;
use std::alloc::Global;

/// The variables of a text, those that are given beforehand first, and the heads of its profiles in order.
#[derive(Drop)]
pub struct Scope<'t> {
    pub variables: Vec<Variable<'t>>,
    pub profiles: Vec<ProfileHead>,
}

/// The variables and the profiles of a text that was cut into these items, or its first fault apart from its grammar. If
/// `overrides`, the values that are given replace what the text says of their variables: its assignments to them count for nothing.
///
/// The time grows with the text, each variable being found among the others by its name, and with what is counted of the texts of
/// paths and of the lists of variables, which is limited: the first path of each run in one profile makes all lists that aren't made.
pub fn scope_of<'t>(
    alloc: Global,
    defines: &[Define<'t>],
    overrides: bool,
    items: &[Item<'t>],
) -> Result<Scope<'t>, ScopeFailure>
    ensures faultless { IfOk result (λ s. FirstFault (at_start defines.now) (items_given overrides defines.now items.now) None) }
    ensures variables { IfOk result (λ s. s.variables.items ≡ (declared_by overrides defines.now items.now).declared) }
    ensures profiles { IfOk result (λ s. s.profiles.items ≡ (declared_by overrides defines.now items.now).profiles) }
    ensures names { IfOk result (λ s. Each (λ head. IsTrue (can_be_said head.name)) s.profiles.items) }
    ensures fault { IfErr result (TellsFault (λ fault.
        FirstFault (at_start defines.now) (items_given overrides defines.now items.now) (Some fault))) }
{
    let (outline, stop) = outline_of(alloc, defines, overrides, items)?;
    let Outline {
        variables,
        profiles,
        asked,
        ..
    } = outline;
    let variables = variables.finish(alloc)?;
    if let Some(fault) = first_problem(alloc, &variables, &profiles, &asked)? {
        return Err(ScopeFailure::At(fault));
    }
    match stop {
        Some(fault) => Err(ScopeFailure::At(fault)),
        None => Ok(Scope {
            variables,
            profiles,
        }),
    }
}
