//! What paths are read as.
use crate::profiles::profile_of;
use rule_text::{ByteRange, Class, Item, Profile, Rule, RuleKind, Stars};
use std::alloc::Global;
use std::io;
use std::io::Write;

/// Shows the profile's name, and of each rule the permissions and the items of its path: a byte in quotes, `?` for any byte,
/// stars as they are written and whether they are strict, a class by its ranges, and a group's alternatives. A group within a
/// group is `{..}`.
pub(crate) fn show_items<W: Write>(alloc: Global, text: &[u8], output: &mut W) -> io::Result<()> {
    match profile_of(alloc, text, output)? {
        Some(profile) => show_rules(&profile, output),
        None => Ok(()),
    }
}

fn show_rules<W: Write>(profile: &Profile, output: &mut W) -> io::Result<()> {
    write!(output, "profile ")?;
    output.write_all(profile.name())?;
    writeln!(output)?;
    for rule in profile.rules() {
        show_rule(rule, output)?;
    }
    Ok(())
}

fn show_rule<W: Write>(rule: &Rule, output: &mut W) -> io::Result<()> {
    let kind = match rule.kind() {
        RuleKind::Allow => "allow",
        RuleKind::Deny => "deny",
    };
    let perms = rule.perms();
    write!(output, "{kind} {perms}:")?;
    for item in rule.items() {
        show_item(item, output)?;
    }
    writeln!(output)
}

fn show_item<W: Write>(item: &Item, output: &mut W) -> io::Result<()> {
    match item {
        Item::Group(alternatives) => show_group(alternatives, output),
        _ => show_inner(item, output),
    }
}

fn show_group<W: Write>(alternatives: &[Vec<Item>], output: &mut W) -> io::Result<()> {
    write!(output, " {{")?;
    for items in alternatives {
        write!(output, " |")?;
        show_alternative(items, output)?;
    }
    write!(output, " }}")
}

fn show_alternative<W: Write>(items: &[Item], output: &mut W) -> io::Result<()> {
    for item in items {
        show_inner(item, output)?;
    }
    Ok(())
}

fn show_inner<W: Write>(item: &Item, output: &mut W) -> io::Result<()> {
    match item {
        Item::Byte(byte) => output.write_all(&[b' ', b'\'', *byte, b'\'']),
        Item::AnyByte => write!(output, " ?"),
        Item::Class(class) => show_class(class, output),
        Item::Stars(stars) => show_stars(*stars, output),
        Item::Group(_) => write!(output, " {{..}}"),
    }
}

fn show_stars<W: Write>(stars: Stars, output: &mut W) -> io::Result<()> {
    let run = if stars.crosses_slashes { "**" } else { "*" };
    let strict = if stars.strict { "strict " } else { "" };
    write!(output, " {strict}{run}")
}

fn show_class<W: Write>(class: &Class, output: &mut W) -> io::Result<()> {
    let sign = if class.is_negated() { "^" } else { "" };
    write!(output, " [{sign}")?;
    for range in class.ranges() {
        show_range(*range, output)?;
    }
    write!(output, " ]")
}

fn show_range<W: Write>(range: ByteRange, output: &mut W) -> io::Result<()> {
    output.write_all(&[b' ', range.first, b'-', range.last])
}
