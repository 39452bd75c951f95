//! Flattened texts that were read, and the profiles in them.
ghost use Rattle.std.specs.Prelude.{◌≡◌, IfErr, IfOk, length, slice_get};
ghost use Rattle.apparmor_words.specs.Stops.{stop_value};
ghost use Rattle.import_scope.specs.Scopes.{ScopeState};
ghost use Rattle.import_scope.specs.Told.{fault_value};
ghost use Rattle.import_profile.specs.AllImports.{IsFaultless, IsTextFault};
ghost use Rattle.import_profile.specs.Faults.{scope_fault, stop_fault};
ghost use Rattle.import_profile.specs.Imports.{head_outcome};
ghost use Rattle.import_profile.specs.Told.{Fails, Tells, import_fault_value};

use crate::choice::which;
use crate::fault::{ImportFailure, ImportFault};
use crate::import::{Imported, import_chosen};
use crate::options::ImportOptions;
use apparmor_text::{Item, read_items};
use apparmor_words::{Stop, StopKind};
use import_scope::{ProfileHead, Scope, ScopeFailure, ScopeFault, ScopeFaultKind, scope_of};
use import_spans::Choice;
use std::alloc::Global;
use std::marker::Model;

/// A flattened text that was read and in which nothing is wrong. Its profiles, children and hats can be imported one by one.
#[derive(Drop)]
pub struct FlattenedText<'t> {
    items: Vec<Item<'t>>,
    scope: Scope<'t>,
}

impl<'t> Model for FlattenedText<'t> {
    ghost use Rattle.std.specs.Prelude.{IsTrue};
    ghost use Rattle.rule_globs.specs.Each.{Each};
    ghost use Rattle.import_scope.specs.Scopes.{can_be_said};
    ghost use Rattle.import_profile.specs.AllImports.{TextValue};

    ghost Value = { TextValue };

    ghost view = { λ t. record {
      items = t.items.items;
      declared = t.scope.variables.items;
      profiles = t.scope.profiles.items;
    } };

    ghost invariant = { λ t. Each (λ head. IsTrue (can_be_said head.name)) t.scope.profiles.items };
}

impl<'t> FlattenedText<'t> {
    /// Reads a text. It has the first fault of what its items say, each once it was read completely, or the fault at which reading
    /// stops. Of the options, only the values of variables matter.
    pub fn read(
        alloc: Global,
        options: ImportOptions<'t>,
        text: &'t [u8],
    ) -> Result<FlattenedText<'t>, ImportFailure<'t>>
        ensures faultless { IfOk result (λ read. IsFaultless options.entry text.now read) }
        ensures fault { IfErr result (Fails (IsTextFault options.entry text.now)) }
    {
        let read = read_items(alloc, text)?;
        let scope = match scope_of(alloc, options.defines, options.overrides, &read.items) {
            Ok(scope) => scope,
            Err(ScopeFailure::NoMemory) => return Err(ImportFailure::NoMemory),
            Err(ScopeFailure::At(fault)) => return Err(ImportFailure::At(scope_fault(fault))),
        };
        match read.stop {
            Some(stop) => Err(ImportFailure::At(stop_fault(text.len(), stop))),
            None => Ok(FlattenedText {
                items: read.items,
                scope,
            }),
        }
    }

    /// Returns how many profiles the text has, with children and hats.
    pub fn profile_count(&self) -> usize
        ensures { result ≡ length self.now.profiles }
    {
        self.scope.profiles.len()
    }

    /// Returns the heads of the profiles.
    pub(crate) fn profiles(&self) -> &[ProfileHead]
        ensures { result.now ≡ self.now.profiles }
    {
        &self.scope.profiles
    }

    /// Imports the profile with this number, which counts from 0 in the order of the text. The options are those that the text was
    /// read with, except for the profile's name, which doesn't matter.
    pub fn import<'f>(
        &self,
        alloc: Global,
        options: ImportOptions<'_>,
        number: usize,
    ) -> Result<Imported, ImportFailure<'f>>
        ensures { (s : ScopeState) → self.now.declared ≡ s.declared → self.now.profiles ≡ s.profiles →
            Tells (λ outcome. outcome ≡ head_outcome options.entry s self.now.items number (slice_get s.profiles number)) result }
    {
        let Some(head) = self.scope.profiles.get(number) else {
            return Err(which(alloc, &self.scope.profiles));
        };
        let choice = Choice {
            subject: options.subject,
            profile: number,
            outermost: head.outermost(),
        };
        import_chosen(
            alloc,
            options.strict,
            choice,
            &self.scope,
            head.name(),
            &self.items,
        )
    }
}

/// Returns the fault at which reading a text of `all` bytes stopped.
fn stop_fault<'t>(all: usize, stop: Stop<'t>) -> ImportFault<'t>
    ensures { import_fault_value result ≡ stop_fault all (stop_value stop.entry) }
{
    let place = all.saturating_sub(stop.left);
    match stop.kind {
        StopKind::Syntax => ImportFault::Syntax { place },
        StopKind::Include => ImportFault::Include { place },
        StopKind::LeftOut(word) => ImportFault::LeftOut { place, word },
        StopKind::Permissions => ImportFault::Permissions { place },
    }
}

/// Returns a fault outside the grammar.
fn scope_fault<'t>(fault: ScopeFault) -> ImportFault<'t>
    ensures { import_fault_value result ≡ scope_fault (fault_value fault) }
{
    let place = fault.place;
    match fault.kind {
        ScopeFaultKind::Declared => ImportFault::Declared { place },
        ScopeFaultKind::Name => ImportFault::Name { place },
        ScopeFaultKind::Undefined(name) => ImportFault::Undefined { place, name },
        ScopeFaultKind::Cycle(name) => ImportFault::Cycle { place, name },
        ScopeFaultKind::TooLong => ImportFault::TooLong { place },
        ScopeFaultKind::TooMuch => ImportFault::TooMuch { place },
    }
}
