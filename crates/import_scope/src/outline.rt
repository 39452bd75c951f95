//! The pass over the items that declares variables, names profiles, and notes which paths are to be asked.
ghost use Rattle.std.specs.Prelude.{◌≡◌, ◌++◌, [], reverse, IfOk, OnOk, OnErr, option_map, length};
ghost use Rattle.std.specs.Option.{option_copied};
ghost use Rattle.apparmor_text.specs.Parts.{bytes_of_parts};
ghost use Rattle.import_scope.specs.Scopes.{ScopeState, at_start, innermost, is_assigned_wrongly, is_one_too_many, assignment_fault};
ghost use Rattle.import_scope.specs.Scopes.{name_fault};
ghost use Rattle.import_scope.specs.Scopes.{can_be_said, assigned, opened, closed, behind, head_fault};
ghost use Rattle.import_scope.specs.Told.{fault_value};
ghost use Rattle.import_scope.specs.Overrides.{is_given, kind_given, items_given};
ghost use Rattle.import_scope.specs.inner.Outlines.{state_of, asked_of, asked_path, asks, Steps, last_state, head_stop, all_asked};

use crate::assigned::{Assignments, Define};
use crate::fault::{ScopeFailure, ScopeFault, ScopeFaultKind};
use crate::head::ProfileHead;
use crate::item_words::{
    assigned_name, assigned_values, is_adding, name_place, own_name, path_bytes, path_place,
};
use apparmor_rules::content;
use apparmor_text::{Item, ItemKind, Part};
use rule_making::is_name;
use std::alloc::{AllocError, Global};

/// The maximum number of variables, with those that are given beforehand.
const MOST_VARIABLES: usize = 1024;

/// A path that is to be asked: the number of its profile, the path, and how many bytes of the text come before it.
#[derive(Clone, Copy)]
pub(crate) struct Asked<'t> {
    pub(crate) profile: usize,
    pub(crate) path: &'t [u8],
    pub(crate) place: usize,
}

/// What the items so far declared, named and asked.
#[derive(Drop)]
pub(crate) struct Outline<'t> {
    pub(crate) variables: Assignments<'t>,
    pub(crate) profiles: Vec<ProfileHead>,
    /// The numbers of the profiles that are open, the innermost last.
    within: Vec<usize>,
    pub(crate) asked: Vec<Asked<'t>>,
    /// How many bytes the items so far have.
    before: usize,
}

/// Whether a profile can have the name, and its canonical text is read again with that name.
fn can_be_said(name: &[u8]) -> bool
    ensures { result ≡ can_be_said name.now }
{
    is_name(name) && !name.ends_with(b"\\")
}

impl<'t> Outline<'t> {
    fn new(alloc: Global, defines: &[Define<'t>]) -> Result<Outline<'t>, AllocError>
        ensures state { IfOk result (λ o. state_of o ≡ at_start defines.now) }
        ensures asked { IfOk result (λ o. asked_of o ≡ []) }
    {
        Ok(Outline {
            variables: Assignments::defined(alloc, defines)?,
            profiles: Vec::new(alloc),
            within: Vec::new(alloc),
            asked: Vec::new(alloc),
            before: 0,
        })
    }

    /// The head of the innermost profile that is open.
    fn innermost(&self) -> Option<&ProfileHead>
        ensures { option_copied result ≡ innermost (state_of self.now) }
    {
        let number = self.within.last()?;
        self.profiles.get(*number)
    }

    /// Whether this name may not be assigned to here.
    fn is_assigned_wrongly(&self, adding: bool, name: &[u8]) -> bool
        ensures { result ≡ is_assigned_wrongly (state_of self.now) adding name.now }
    {
        !self.profiles.is_empty()
            || name == b"profile_name".as_slice()
            || self.variables.has(name) != adding
    }

    /// Whether an assignment here would declare one variable too many.
    fn is_one_too_many(&self, adding: bool) -> bool
        ensures { result ≡ is_one_too_many (state_of self.now) adding }
    {
        !adding && self.variables.len() >= MOST_VARIABLES
    }

    fn assign(&mut self, alloc: Global, parts: &[Part<'t>]) -> Result<(), ScopeFailure>
        ensures steps { Steps result (assignment_fault (state_of self.old) parts.now) (state_of self.old) (state_of self.new)
            (assigned (state_of self.old) parts.now) }
        ensures asked { asked_of self.new ≡ asked_of self.old }
    {
        let name = assigned_name(parts);
        let adding = is_adding(parts);
        if self.is_assigned_wrongly(adding, name) {
            return Err(ScopeFailure::At(ScopeFault {
                kind: ScopeFaultKind::Declared,
                place: self.before,
            }));
        }
        if self.is_one_too_many(adding) {
            return Err(ScopeFailure::At(ScopeFault {
                kind: ScopeFaultKind::TooMuch,
                place: self.before,
            }));
        }
        let values = assigned_values(alloc, parts)?;
        if adding {
            self.variables.add(name, &values)?;
        } else {
            self.variables.declare(alloc, name, values)?;
        }
        Ok(())
    }

    fn open_profile(
        &mut self,
        alloc: Global,
        is_hat: bool,
        parts: &[Part<'t>],
    ) -> Result<(), ScopeFailure>
        ensures steps { Steps result (name_fault (state_of self.old) parts.now) (state_of self.old) (state_of self.new)
            (opened (state_of self.old) is_hat parts.now) }
        ensures asked { asked_of self.new ≡ asked_of self.old }
    {
        let number = self.profiles.len();
        let head = ProfileHead::within(alloc, self.innermost(), number, is_hat, own_name(parts))?;
        if !can_be_said(head.name()) {
            return match name_place(self.before, parts) {
                Some(place) => Err(ScopeFailure::At(ScopeFault {
                    kind: ScopeFaultKind::Name,
                    place,
                })),
                None => Err(ScopeFailure::NoMemory),
            };
        }
        self.profiles.push(head)?;
        self.within.push(number)?;
        Ok(())
    }

    fn close_profile(&mut self)
        ensures state { state_of self.new ≡ closed (state_of self.old) }
        ensures asked { asked_of self.new ≡ asked_of self.old }
    {
        self.within.pop();
    }

    /// Notes the path of a rule, if it has one.
    fn ask(&mut self, parts: &[Part<'t>]) -> Result<(), AllocError>
        ensures state { state_of self.new ≡ state_of self.old }
        ensures asked { OnOk result (asked_of self.new ≡ asked_of self.old ++ asked_path (state_of self.old) parts.now) }
        ensures same { OnErr result (asked_of self.new ≡ asked_of self.old) }
    {
        if self.innermost().is_none() {
            return Ok(());
        }
        let Some(profile) = self.within.last().copied() else {
            return Ok(());
        };
        let Some(bytes) = path_bytes(parts) else {
            return Ok(());
        };
        let place = path_place(self.before, parts).ok_or(AllocError)?;
        self.asked.push(Asked {
            profile,
            path: content(bytes),
            place,
        })?;
        Ok(())
    }

    /// Goes past an item, as one of this kind, that has no fault of a declaration or of a name.
    fn item(&mut self, alloc: Global, kind: ItemKind, item: &Item<'t>) -> Result<(), ScopeFailure>
        ensures steps { Steps result (head_fault kind (state_of self.old) item.now.parts) (state_of self.old) (state_of self.new)
            (behind (state_of self.old) (record { kind = kind; parts = item.now.parts })) }
        ensures asked { OnOk result (asked_of self.new ≡ asked_of self.old ++ asks kind (state_of self.old) item.now.parts) }
        ensures same { OnErr result (asked_of self.new ≡ asked_of self.old) }
    {
        let past = self
            .before
            .checked_add(item.text().len())
            .ok_or(ScopeFailure::NoMemory)?;
        match kind {
            ItemKind::Assignment => self.assign(alloc, item.parts())?,
            ItemKind::Profile => self.open_profile(alloc, false, item.parts())?,
            ItemKind::Hat => self.open_profile(alloc, true, item.parts())?,
            ItemKind::Close => self.close_profile(),
            ItemKind::Rule => self.ask(item.parts())?,
            ItemKind::Blank | ItemKind::Statement => {}
        }
        self.before = past;
        Ok(())
    }
}

/// Whether a value of the variable with this name is given.
fn is_given(defines: &[Define<'_>], name: &[u8]) -> bool
    ensures { result ≡ is_given defines.now name.now }
{
    defines.iter().any(|define| define.name == name)
}

/// The kind of an item, where the values that are given replace what the text says of their variables or don't.
fn kind_given(overrides: bool, defines: &[Define<'_>], item: &Item<'_>) -> ItemKind
    ensures { result ≡ kind_given overrides defines.now item.now.kind item.now.parts }
{
    let kind = item.kind();
    match kind {
        ItemKind::Assignment => {
            if overrides && is_given(defines, assigned_name(item.parts())) {
                ItemKind::Blank
            } else {
                kind
            }
        }
        _ => kind,
    }
}

/// The outline of the items up to the first that has a fault of a declaration or of a name, and that fault.
pub(crate) fn outline_of<'t>(
    alloc: Global,
    defines: &[Define<'t>],
    overrides: bool,
    items: &[Item<'t>],
) -> Result<(Outline<'t>, Option<ScopeFault>), AllocError>
    ensures state { IfOk result (λ r. state_of r.0
        ≡ last_state (at_start defines.now) (items_given overrides defines.now items.now)) }
    ensures asked { IfOk result (λ r. asked_of r.0
        ≡ all_asked (at_start defines.now) (items_given overrides defines.now items.now)) }
    ensures stop { IfOk result (λ r. option_map fault_value r.1
        ≡ head_stop (at_start defines.now) (items_given overrides defines.now items.now)) }
{
    let mut outline = Outline::new(alloc, defines)?;
    for item in items {
        let kind = kind_given(overrides, defines, item);
        match outline.item(alloc, kind, item) {
            Ok(()) => {}
            Err(ScopeFailure::NoMemory) => return Err(AllocError),
            Err(ScopeFailure::At(fault)) => return Ok((outline, Some(fault))),
        }
    }
    Ok((outline, None))
}
