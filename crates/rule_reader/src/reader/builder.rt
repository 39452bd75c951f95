//! The items of a path that is being read, with the groups that are still open.
ghost use Rattle.std.specs.Prelude.{IsTrue, ◌&&◌};
ghost use Rattle.std.specs.List.{list_all};
ghost use Rattle.rule_globs.specs.Tokens.{all_full};

use super::local_fault::{Failure, FaultKind, fault_with_left};
use rule_globs::Item;
use std::alloc::{AllocFailed, Global};
use std::mem;

/// A group whose closing brace was not reached yet.
#[derive(Drop)]
pub(crate) struct OpenGroup {
    /// How many bytes of the text are left from its brace on.
    pub(crate) left: usize,
    /// What is before it.
    pub(crate) before: Vec<Item>,
    /// The alternatives that are complete.
    pub(crate) alternatives: Vec<Vec<Item>>,
    ghost full: { IsTrue (all_full before.items && list_all (λ items. all_full items.items) alternatives.items) },
}

/// A path up to some place: its open groups, outermost first, and the items of the innermost open alternative.
#[derive(Drop)]
pub(crate) struct Builder {
    pub(crate) groups: Vec<OpenGroup>,
    pub(crate) items: Vec<Item>,
    ghost full: { IsTrue (all_full items.items) },
}

impl Builder {
    ghost use Rattle.std.specs.Prelude.{◌≡◌, ◌<◌, ◌∷◌, ◌++◌, [], length, drop, IfOk, IfErr};
    ghost use Rattle.rule_reader.specs.inner.PartialPaths.{tokens_in, braces_in};
    ghost use Rattle.rule_reader.specs.ReadPaths.{all_closed};
    ghost use Rattle.rule_reader.specs.inner.Gives.{Gives};
    ghost use Rattle.rule_globs.specs.Tokens.{tokens, tokens_of, is_full, opening, between, closing};

    pub(crate) fn new(alloc: Global) -> Builder
        ensures tokens { tokens_in result ≡ [] }
        ensures braces { braces_in result ≡ [] }
    {
        Builder {
            groups: Vec::new(alloc),
            items: Vec::new(alloc),
        }
    }

    /// How many groups are open.
    pub(crate) fn depth(&self) -> usize
        ensures { result ≡ length (braces_in self.now) }
    {
        self.groups.len()
    }

    /// Adds an item.
    pub(crate) fn push(&mut self, item: Item) -> Result<(), AllocFailed<Item>>
        requires { IsTrue (is_full item) }
        ensures tokens { IfOk result (λ _. tokens_in self.new ≡ tokens_in self.old ++ tokens item) }
        ensures braces { IfOk result (λ _. braces_in self.new ≡ braces_in self.old) }
    {
        self.items.push(item)
    }

    /// Opens a group, with `left` bytes left from its brace on.
    pub(crate) fn open_group(&mut self, alloc: Global, left: usize) -> Result<(), Failure>
        ensures tokens { IfOk result (λ _. tokens_in self.new ≡ tokens_in self.old ++ (opening ∷ [])) }
        ensures braces { IfOk result (λ _. braces_in self.new ≡ left ∷ braces_in self.old) }
        ensures memory { IfErr result (λ e. e ≡ Failure.NoMemory) }
    {
        let before = mem::replace(&mut self.items, Vec::new(alloc));
        self.groups.push(OpenGroup {
            left,
            before,
            alternatives: Vec::new(alloc),
        })?;
        Ok(())
    }

    /// Begins the next alternative of the innermost group. Does nothing outside groups.
    pub(crate) fn next_alternative(&mut self, alloc: Global) -> Result<(), Failure>
        ensures tokens { IfOk result (λ _. 0 < length (braces_in self.old) →
            tokens_in self.new ≡ tokens_in self.old ++ (between ∷ [])) }
        ensures braces { IfOk result (λ _. braces_in self.new ≡ braces_in self.old) }
        ensures memory { IfErr result (λ e. e ≡ Failure.NoMemory) }
    {
        if let Some(mut group) = self.groups.pop() {
            let items = mem::replace(&mut self.items, Vec::new(alloc));
            group.alternatives.push(items)?;
            self.groups.push(group)?;
        }
        Ok(())
    }

    /// Closes the innermost group. Does nothing outside groups.
    pub(crate) fn close_group(&mut self) -> Result<(), Failure>
        ensures tokens { IfOk result (λ _. 0 < length (braces_in self.old) →
            tokens_in self.new ≡ tokens_in self.old ++ (closing ∷ [])) }
        ensures braces { IfOk result (λ _. braces_in self.new ≡ drop 1 (braces_in self.old)) }
        ensures memory { IfErr result (λ e. e ≡ Failure.NoMemory) }
    {
        if let Some(group) = self.groups.pop() {
            let mut alternatives = group.alternatives;
            let items = mem::replace(&mut self.items, group.before);
            alternatives.push(items)?;
            self.items.push(Item::Group(alternatives))?;
        }
        Ok(())
    }

    /// The items of the path, which ends before `rest`. A group that is still open is a fault at its brace.
    pub(crate) fn finish(mut self, rest: &[u8]) -> Result<Vec<Item>, Failure>
        ensures closed { Gives (λ items. ([], rest.now)) result (all_closed (braces_in self) rest.now) }
        ensures tokens { IfOk result (λ items. tokens_of items.items ≡ tokens_in self) }
        ensures full { IfOk result (λ items. IsTrue (all_full items.items)) }
    {
        match self.groups.pop() {
            Some(group) => Err(fault_with_left(FaultKind::Group, group.left, rest)),
            None => Ok(self.items),
        }
    }
}
