//! The denials of a log, each once.
ghost use Rattle.std.specs.Prelude.{◌≡◌, [], IfOk, None, OnOk, Some, map};
ghost use Rattle.audit_log.specs.Denials.{denial_value};
ghost use Rattle.trace_audit.specs.Groups.{groups_after, groups_of, lines_of, noted, once_more};
ghost use Rattle.trace_audit.specs.inner.GroupValues.{group_value, place_of};

use audit_log::{Denial, parse_line};
use names::NoMemory;
use std::alloc::{AllocError, Global};
use std::collections::BTreeMap;
use std::marker::Model;

/// A denial, and the numbers of the lines that report it.
#[derive(Debug, Drop)]
pub(crate) struct Group {
    pub denial: Denial,
    /// The number of the first line.
    pub line: usize,
    /// The numbers of the others.
    pub again: Vec<usize>,
}

impl Group {
    /// Notes another line that reports the denial.
    fn note_again(&mut self, line: usize) -> Result<(), AllocError>
        ensures denial { self.new.denial ≡ self.old.denial }
        ensures line { OnOk result (group_value self.new ≡ once_more line (group_value self.old)) }
    {
        self.again.push(line)?;
        Ok(())
    }
}

/// The denials so far, each found by a copy of it. To contracts they are their groups.
#[derive(Drop)]
struct Groups {
    groups: Vec<Group>,
    places: BTreeMap<Denial, usize>,
}

impl Model for Groups {
    ghost use Rattle.std.specs.Prelude.{◌≡◌, List, map};
    ghost use Rattle.std.specs.BTreeMap.{get};
    ghost use Rattle.audit_log.specs.Denials.{denial_value};
    ghost use Rattle.audit_log.specs.contracts.denial.DenialOrd.TheImpl as denial_order;
    ghost use Rattle.audit_log.specs.declared.denial.Denial.{Denial as SomeDenial};
    ghost use Rattle.trace_audit.specs.Groups.{Group as GroupValue};
    ghost use Rattle.trace_audit.specs.inner.GroupValues.{group_value, place_of};

    ghost Value = { List GroupValue };

    ghost view = { λ g. map group_value g.groups.items };

    ghost invariant = { λ g. (denial : SomeDenial) → get denial_order.cmp-value.it g.places denial
        ≡ place_of (map group_value g.groups.items) (denial_value denial) };
}

impl Groups {
    /// No groups.
    fn none(alloc: Global) -> Groups
        ensures { result ≡ [] }
    {
        Groups {
            groups: Vec::new(alloc),
            places: BTreeMap::new(alloc),
        }
    }

    /// Where the group of this denial is.
    fn place(&self, denial: &Denial) -> Option<usize>
        ensures { result ≡ place_of self.now (denial_value denial.now) }
    {
        self.places.get(denial).copied()
    }

    /// Notes a denial of this line, which is none of those that were noted.
    fn note_first(&mut self, alloc: Global, denial: Denial, line: usize) -> Result<(), AllocError>
        requires { place_of self.old (denial_value denial) ≡ None }
        ensures { OnOk result (self.new ≡ noted line (denial_value denial) self.old) }
    {
        let place = self.groups.len();
        let key = denial.copied(alloc)?;
        self.groups.reserve(1)?;
        self.places.insert(key, place)?;
        let again = Vec::new(alloc);
        self.groups.push_reserved(Group {
            denial,
            line,
            again,
        });
        Ok(())
    }

    /// Notes another line that reports a denial, whose group is at this place.
    fn note_at(&mut self, place: usize, denial: &Denial, line: usize) -> Result<(), AllocError>
        requires { place_of self.old (denial_value denial.now) ≡ Some place }
        ensures { OnOk result (self.new ≡ noted line (denial_value denial.now) self.old) }
    {
        self.groups[place].note_again(line)
    }

    /// Notes a denial of the line with this number.
    fn note(&mut self, alloc: Global, denial: Denial, line: usize) -> Result<(), AllocError>
        ensures { OnOk result (self.new ≡ noted line (denial_value denial) self.old) }
    {
        match self.place(&denial) {
            Some(place) => self.note_at(place, &denial, line),
            None => self.note_first(alloc, denial, line),
        }
    }

    /// The groups, in the order of their first lines.
    fn finish(self) -> Vec<Group>
        ensures { map group_value result.items ≡ self }
    {
        let Groups { groups, .. } = self;
        groups
    }
}

/// The lines of a text.
fn lines_of(alloc: Global, text: &[u8]) -> Result<Vec<&[u8]>, AllocError>
    ensures { IfOk result (λ lines. map (λ line. line.now) lines.items ≡ lines_of text.now) }
{
    text.split(|byte| *byte == b'\n').collect(alloc)
}

/// The denials of these lines, which are numbered from 1.
fn noted_of_lines(alloc: Global, lines: &[&[u8]]) -> Result<Groups, NoMemory>
    ensures { IfOk result (λ groups. groups ≡ groups_after 1 (map (λ line. line.now) lines.now) []) }
{
    let mut groups = Groups::none(alloc);
    for (i, line) in lines.iter().enumerate() {
        if let Some(denial) = parse_line(alloc, line)? {
            if groups.note(alloc, denial, i + 1).is_err() {
                return Err(NoMemory);
            }
        }
    }
    Ok(groups)
}

/// The denials of a log, in the order of their first lines.
pub(crate) fn groups_of(alloc: Global, log: &[u8]) -> Result<Vec<Group>, NoMemory>
    ensures { IfOk result (λ groups. map group_value groups.items ≡ groups_of log.now) }
{
    match lines_of(alloc, log) {
        Ok(lines) => Ok(noted_of_lines(alloc, &lines)?.finish()),
        Err(_) => Err(NoMemory),
    }
}
