//! What an account says about the parts of a file rule.
ghost use Rattle.std.specs.Prelude.{◌≡◌, ◌++◌, [], ◌∷◌, IfOk, option_map};
ghost use Rattle.std.specs.List.{flat_map};
ghost use Rattle.apparmor_rules.specs.RuleParts.{if_so, part_whats, part_effect, rule_whats, no_effect, has_long_slashes};

use crate::words::{RuleWords, is_link_rule, may_bind_link};
use crate::{Effect, Extent, RuleShape, Subject, What};
use apparmor_pieces::one_slash;
use apparmor_text::{Part, PartKind};
use apparmor_words::Letters;
use names::NoMemory;
use std::alloc::Global;

/// What decides what is reported about the parts of a rule.
#[derive(Clone, Copy, Debug)]
pub struct Marks {
    pub letters: Letters,
    /// Some run of slashes in the path becomes one.
    pub slashes: bool,
    /// The path may be read in another way, which is why the rule is dropped.
    pub pattern: bool,
    /// The word `link` comes before the path.
    pub link: bool,
    /// An arrow binds link.
    pub binds: bool,
}

/// Adds a word, if it is reported.
fn push_if(whats: &mut Vec<What>, told: bool, what: What) -> Result<(), NoMemory>
    ensures { IfOk result (λ _. whats.new.items ≡ whats.old.items ++ if_so told what) }
{
    if !told {
        return Ok(());
    }
    match whats.push(what) {
        Ok(()) => Ok(()),
        Err(_) => Err(NoMemory),
    }
}

/// Whether some run of slashes in the path becomes one.
fn has_long_slashes(alloc: Global, path: Option<&[u8]>) -> Result<bool, NoMemory>
    ensures { IfOk result (λ has. has ≡ has_long_slashes (option_map (λ text. text.now) path.entry)) }
{
    match path {
        Some(text) => Ok(one_slash(alloc, text)?.as_slice() != text),
        None => Ok(false),
    }
}

impl Marks {
    ghost use Rattle.std.specs.Prelude.{◌≡◌, ◌++◌, IfOk};
    ghost use Rattle.apparmor_rules.specs.RuleParts.{part_whats, marks_of};

    /// The marks of a rule of these parts; `pattern` says whether it is dropped because of its path.
    pub fn of(alloc: Global, parts: &[Part<'_>], pattern: bool) -> Result<Marks, NoMemory>
        ensures { IfOk result (λ marks. marks ≡ marks_of pattern parts.now) }
    {
        let words = RuleWords::of(parts);
        Ok(Marks {
            letters: words.letters,
            slashes: has_long_slashes(alloc, words.path)?,
            pattern,
            link: is_link_rule(parts),
            binds: may_bind_link(parts, words.perms),
        })
    }

    /// Adds what is reported about a part of this kind.
    pub fn put(self, kind: PartKind, whats: &mut Vec<What>) -> Result<(), NoMemory>
        ensures { IfOk result (λ _. whats.new.items ≡ whats.old.items ++ part_whats self kind) }
    {
        match kind {
            PartKind::Audit => push_if(whats, true, What::Audit),
            PartKind::Priority => push_if(whats, true, What::Priority),
            PartKind::Owner => push_if(whats, true, What::Owner),
            PartKind::Other => push_if(whats, true, What::Other),
            PartKind::File => push_if(whats, true, What::File),
            PartKind::Safe => push_if(whats, true, What::Safe),
            PartKind::Unsafe => push_if(whats, true, What::Unsafe),
            PartKind::Link => push_if(whats, true, What::Link),
            PartKind::Subset => push_if(whats, true, What::Subset),
            PartKind::Path => {
                push_if(whats, self.slashes, What::Slashes)?;
                push_if(whats, self.pattern, What::Pattern)
            }
            PartKind::Permissions => {
                push_if(whats, self.letters.exec.is_some(), What::Exec)?;
                push_if(whats, self.letters.capitals, What::Capitals)
            }
            PartKind::Arrow => {
                push_if(whats, !self.link && self.binds, What::Link)?;
                push_if(whats, !self.link && !self.binds, What::Target)
            }
            _ => Ok(()),
        }
    }
}

/// What is reported about a rule of which nothing is kept, in the order of its parts.
pub fn rule_whats(alloc: Global, marks: Marks, parts: &[Part<'_>]) -> Result<Vec<What>, NoMemory>
    ensures { IfOk result (λ whats. whats.items ≡ rule_whats marks parts.now) }
{
    let mut whats = Vec::new(alloc);
    for part in parts {
        marks.put(part.kind(), &mut whats)?;
    }
    Ok(whats)
}

/// What it changes, in a rule that is kept, to leave out a part of this kind.
pub fn part_effect(chosen: Subject, shape: RuleShape, kind: PartKind) -> Effect
    ensures { result ≡ part_effect chosen shape kind }
{
    match kind {
        PartKind::Owner | PartKind::Other => Effect::of(chosen, shape.qualifier_alone()),
        PartKind::Arrow => Effect::of(chosen, shape.for_everybody()),
        _ => Effect {
            chosen,
            on_chosen: Extent::Exact,
            on_other: Extent::Exact,
        },
    }
}
