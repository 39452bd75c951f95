//! What restating the rules of a flattened text for one subject changes.
use apparmor_rules::{AppliesTo, Effect, RuleShape, Subject};
use names::{Perms, RuleKind};
use std::io;
use std::io::Write;
use test_parts::Case;

/// Shows for each shape of a rule what restating it changes, and whether it is restated or left out. A shape is `allow` or
/// `deny`, to whom it applies, the letters of permissions, where it has some, `target` where its link has one, `unread` where
/// its path can't be read, and `priority` where it has one.
pub(crate) fn show_effects<W: Write>(case: &Case<'_>, output: &mut W) -> io::Result<()> {
    let chosen = if case.options.contains(&"other") {
        Subject::Other
    } else {
        Subject::Owner
    };
    for line in case.text.lines() {
        match shape_of(line) {
            Some(shape) => tell_effect(line, chosen, shape, output)?,
            None => writeln!(output, "{line}: no shape")?,
        }
    }
    Ok(())
}

fn tell_effect<W: Write>(
    line: &str,
    chosen: Subject,
    shape: RuleShape,
    output: &mut W,
) -> io::Result<()> {
    let effect = Effect::of(chosen, shape);
    let restated = if shape.is_restated(chosen) {
        "restated"
    } else {
        "left out"
    };
    writeln!(output, "{line}: {effect}, {restated}")
}

fn shape_of(line: &str) -> Option<RuleShape> {
    let mut words = line.split_whitespace();
    let mut shape = RuleShape {
        kind: kind_of(words.next()?)?,
        applies_to: applies_to(words.next()?)?,
        perms: Perms::NONE,
        has_target: false,
        is_read: true,
        has_priority: false,
    };
    for word in words {
        match word {
            "target" => shape.has_target = true,
            "unread" => shape.is_read = false,
            "priority" => shape.has_priority = true,
            _ => shape.perms = Perms::from_letters(word.as_bytes())?,
        }
    }
    Some(shape)
}

fn kind_of(word: &str) -> Option<RuleKind> {
    match word {
        "allow" => Some(RuleKind::Allow),
        "deny" => Some(RuleKind::Deny),
        _ => None,
    }
}

fn applies_to(word: &str) -> Option<AppliesTo> {
    match word {
        "everybody" => Some(AppliesTo::Everybody),
        "owners" => Some(AppliesTo::Owners),
        "others" => Some(AppliesTo::Others),
        _ => None,
    }
}
