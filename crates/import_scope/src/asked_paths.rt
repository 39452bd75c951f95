//! The pass over the paths that are asked.
ghost use Rattle.std.specs.Prelude.{◌≡◌, ◌≤◌, ℕ, List, length, IfOk, IfErr, OnOk, Some, None, true, map, option_map, unwrap_or};
ghost use Rattle.apparmor_variables.specs.PathTexts.{IsSubstituted};
ghost use Rattle.apparmor_variables.specs.Variables.{Variable as DeclaredVariable};
ghost use Rattle.import_scope.specs.FirstFaults.{most_together, nothing_counted, is_last, variables_within};
ghost use Rattle.import_scope.specs.Told.{fault_value};
ghost use Rattle.import_scope.specs.inner.Outlines.{asked_value};
ghost use Rattle.import_scope.specs.inner.Problems.{name_at, question_at, counted_of, CountsLists, CountsText, IsPathFault};
ghost use Rattle.import_scope.specs.inner.Problems.{Places, AnswersAs, FirstProblem};

use crate::fault::{ScopeFault, ScopeFaultKind};
use crate::head::ProfileHead;
use crate::outline::Asked;
use crate::seen::lists_of;
use apparmor_variables::{ExpandFault, Lists, Variable};
use std::alloc::{AllocError, Global};

/// The maximum number of bytes that the texts of paths and the lists of variables count together.
const MOST_TOGETHER: usize = 16_777_216;

/// The variables as they are in a profile, and what was counted so far.
#[derive(Drop)]
struct Seen<'a> {
    /// The number of the profile: that of the last path, if there was one, and else the first.
    profile: Option<usize>,
    lists: Lists<'a>,
    bytes: usize,
}

/// The full name of the profile with this number.
fn name_at(profiles: &[ProfileHead], number: usize) -> &[u8]
    ensures { result.now ≡ name_at profiles.now number }
{
    match profiles.get(number) {
        Some(head) => head.name(),
        None => &[],
    }
}

impl<'a> Seen<'a> {
    /// As they are in the first profile.
    fn at_first(
        alloc: Global,
        variables: &'a [Variable<'_>],
        profiles: &'a [ProfileHead],
    ) -> Result<Seen<'a>, AllocError>
        ensures lists { IfOk result (λ s. s.lists ≡ variables_within variables.now (name_at profiles.now 0)) }
        ensures counted { IfOk result (λ s. counted_of s ≡ nothing_counted) }
    {
        match lists_of(alloc, variables, name_at(profiles, 0)) {
            Ok(lists) => Ok(Seen {
                profile: None,
                lists,
                bytes: 0,
            }),
            Err(_) => Err(AllocError),
        }
    }

    /// Whether the last path was in the profile with this number.
    fn is_last(&self, number: usize) -> bool
        ensures { result ≡ is_last self.now.profile number }
    {
        match self.profile {
            Some(last) => last == number,
            None => false,
        }
    }

    /// Turns the variables into what they are in the profile with this number and counts them, unless the last path was in it.
    /// Returns whether it isn't too much together.
    fn go_to(
        &mut self,
        alloc: Global,
        profiles: &'a [ProfileHead],
        number: usize,
    ) -> Result<bool, AllocError>
        requires { self.old.bytes ≤ most_together }
        ensures lists { OnOk result ((variables : List DeclaredVariable) → self.old.lists ≡ variables_within variables
            (name_at profiles.now (unwrap_or self.old.profile 0)) → self.new.lists ≡ variables_within variables
            (name_at profiles.now number)) }
        ensures count { IfOk result (CountsLists (is_last self.old.profile number) self.new.lists self.old.bytes self.new.bytes) }
        ensures profile { IfOk result (λ fits. fits ≡ true → self.new.profile ≡ Some number) }
    {
        if self.is_last(number) {
            return Ok(true);
        }
        if self
            .lists
            .set_first(alloc, name_at(profiles, number))
            .is_err()
        {
            return Err(AllocError);
        }
        self.profile = Some(number);
        match self.lists.count_others(alloc, MOST_TOGETHER - self.bytes) {
            Ok(Some(count)) => {
                self.bytes += count;
                Ok(true)
            }
            Ok(None) => Ok(false),
            Err(_) => Err(AllocError),
        }
    }

    /// Counts a text of this many bytes, and returns whether it isn't too much together.
    fn count_text(&mut self, bytes: usize) -> bool
        requires { self.old.bytes ≤ most_together }
        ensures count { CountsText result bytes self.old.bytes self.new.bytes }
        ensures profile { self.new.profile ≡ self.old.profile }
        ensures lists { self.new.lists ≡ self.old.lists }
    {
        if bytes > MOST_TOGETHER - self.bytes {
            return false;
        }
        self.bytes += bytes;
        true
    }

    /// Returns the fault of a path, if it has one, and counts it.
    fn ask(
        &mut self,
        alloc: Global,
        profiles: &'a [ProfileHead],
        asked: Asked<'a>,
    ) -> Result<Option<ScopeFault>, AllocError>
        requires { self.old.bytes ≤ most_together }
        ensures lists { OnOk result ((variables : List DeclaredVariable) → self.old.lists ≡ variables_within variables
            (name_at profiles.now (unwrap_or self.old.profile 0)) → self.new.lists ≡ variables_within variables
            (name_at profiles.now asked.entry.profile)) }
        ensures fault { IfOk result (λ fault. (variables : List DeclaredVariable) → self.old.lists ≡ variables_within variables
            (name_at profiles.now (unwrap_or self.old.profile 0)) →
            AnswersAs (counted_of self.old) (question_at variables profiles.now (asked_value asked.entry)) (option_map fault_value fault)
            (counted_of self.new)) }
        ensures most { IfOk result (λ fault. fault ≡ None → self.new.bytes ≤ most_together) }
        ensures profile { IfOk result (λ fault. fault ≡ None → self.new.profile ≡ Some asked.entry.profile) }
    {
        if self.go_to(alloc, profiles, asked.profile)? {
            self.place(alloc, asked)
        } else {
            Ok(Some(fault_at(asked, ScopeFaultKind::TooMuch)))
        }
    }

    /// Measures the text of a path with the variables, as they are, in place, and counts it. Returns the fault, if there is one.
    fn place(&mut self, alloc: Global, asked: Asked<'a>) -> Result<Option<ScopeFault>, AllocError>
        requires { self.old.bytes ≤ most_together }
        ensures lists { self.new.lists ≡ self.old.lists }
        ensures profile { self.new.profile ≡ self.old.profile }
        ensures fault { IfOk result (λ fault. Places self.old.lists asked.entry.path.now asked.entry.place (option_map fault_value fault)
            self.old.bytes self.new.bytes) }
    {
        match length_of(alloc, &mut self.lists, asked)? {
            Ok(length) => {
                if self.count_text(length) {
                    Ok(None)
                } else {
                    Ok(Some(fault_at(asked, ScopeFaultKind::TooMuch)))
                }
            }
            Err(fault) => Ok(Some(fault)),
        }
    }
}

/// The length of the text of a path with the variables in place, or its fault if it has none. The text isn't made.
fn length_of<'a>(
    alloc: Global,
    lists: &mut Lists<'a>,
    asked: Asked<'a>,
) -> Result<Result<usize, ScopeFault>, AllocError>
    ensures lists { lists.new ≡ lists.old }
    ensures length { IfOk result (λ r. IfOk r
        (λ n. (text : List ℕ) × IsSubstituted lists.old asked.entry.path.now text × (n ≡ length text))) }
    ensures fault { IfOk result
        (λ r. IfErr r (λ fault. IsPathFault lists.old asked.entry.path.now asked.entry.place (fault_value fault))) }
{
    let kind = match lists.measure(alloc, asked.path) {
        Ok(length) => return Ok(Ok(length)),
        Err(ExpandFault::NoMemory) => return Err(AllocError),
        Err(ExpandFault::TooLong) => ScopeFaultKind::TooLong,
        Err(ExpandFault::Undefined { name }) => {
            ScopeFaultKind::Undefined(Vec::from_slice(alloc, name)?)
        }
        Err(ExpandFault::Cycle { name }) => ScopeFaultKind::Cycle(Vec::from_slice(alloc, name)?),
    };
    Ok(Err(fault_at(asked, kind)))
}

/// The fault of this kind at a path.
fn fault_at(asked: Asked<'_>, kind: ScopeFaultKind) -> ScopeFault
    ensures { result ≡ record { kind = kind; place = asked.entry.place } }
{
    ScopeFault {
        kind,
        place: asked.place,
    }
}

/// The first fault of the paths, in the order in which they are asked.
///
/// The variables are copied once, and each list is made once, except for those that need `profile_name`: they are made again
/// where a path is in another profile than the one that was asked before it.
pub(crate) fn first_problem<'a>(
    alloc: Global,
    variables: &'a [Variable<'_>],
    profiles: &'a [ProfileHead],
    asked: &'a [Asked<'_>],
) -> Result<Option<ScopeFault>, AllocError>
    ensures { IfOk result (λ fault. FirstProblem variables.now profiles.now nothing_counted (map asked_value asked.now)
        (option_map fault_value fault)) }
{
    let mut seen = Seen::at_first(alloc, variables, profiles)?;
    for question in asked {
        if let Some(fault) = seen.ask(alloc, profiles, *question)? {
            return Ok(Some(fault));
        }
    }
    Ok(None)
}
