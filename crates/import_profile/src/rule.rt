//! Rules of the chosen profile, as read.
ghost use Rattle.std.specs.Prelude.{◌≡◌, IfOk, All, IsTrue};
ghost use Rattle.rule_profile.specs.Readable.{is_path};
ghost use Rattle.import_profile.specs.FileRules.{reading_of, subject_rule};
ghost use Rattle.import_profile.specs.inner.GatheredRules.{paths_looked_at};

use crate::texts::text_of_path;
use crate::{imported_paths, imported_paths_can_be_read};
use apparmor_rules::{Marks, RuleShape, RuleWords, Subject};
use apparmor_text::Part;
use apparmor_variables::Lists;
use import_spans::RuleReading;
use names::NoMemory;
use rule_globs::RulePath;
use std::alloc::Global;

/// A rule: how it is reported, and the paths that it is restated with.
#[derive(Drop)]
pub(crate) struct ChosenRule {
    pub(crate) reading: RuleReading,
    pub(crate) paths: Vec<RulePath>,
}

/// Returns the rule of these parts. If it isn't restated anyway, its path isn't looked at.
pub(crate) fn rule_of<'a>(
    alloc: Global,
    chosen: Subject,
    lists: &mut Lists<'a>,
    parts: &'a [Part<'_>],
) -> Result<ChosenRule, NoMemory>
    ensures lists { lists.new ≡ lists.old }
    ensures reading { IfOk result (λ rule. rule.reading ≡ reading_of lists.old chosen (subject_rule lists.old parts.now) parts.now) }
    ensures paths { IfOk result (λ rule. rule.paths.items ≡ paths_looked_at chosen (subject_rule lists.old parts.now)) }
    ensures readable { IfOk result (λ rule. All (λ path. IsTrue (is_path path)) rule.paths.items) }
{
    imported_paths_can_be_read();
    let words = RuleWords::of(parts);
    let as_read = RuleShape {
        kind: words.kind,
        applies_to: words.applies_to,
        perms: words.perms,
        has_target: words.target.is_some(),
        is_read: true,
        has_priority: words.has_priority,
    };
    if !as_read.is_restated(chosen) {
        let marks = Marks::of(alloc, parts, false)?;
        let reading = RuleReading {
            shape: as_read,
            marks,
        };
        let paths = Vec::new(alloc);
        return Ok(ChosenRule { reading, paths });
    }
    let text = text_of_path(alloc, lists, words.path)?;
    let paths = imported_paths(alloc, &text)?;
    let shape = RuleShape {
        is_read: !paths.is_empty(),
        ..as_read
    };
    let marks = Marks::of(alloc, parts, paths.is_empty())?;
    let reading = RuleReading { shape, marks };
    Ok(ChosenRule { reading, paths })
}
