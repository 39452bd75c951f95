//! What a file rule says, by its parts.
ghost use Rattle.std.specs.Prelude.{◌≡◌, option_map, true, false};
ghost use Rattle.names.specs.Permissions.{set_of};
ghost use Rattle.apparmor_rules.specs.RuleWords.{content, is_deny, is_owner, is_other, is_link, is_path, is_permissions, is_arrow_part};
ghost use Rattle.apparmor_rules.specs.RuleWords.{past_blank, target_text, first_bytes, has_part, permissions_lead};
ghost use Rattle.apparmor_rules.specs.RuleWords.{letters_in, perms_of_rule};
ghost use Rattle.apparmor_rules.specs.RuleWords.{is_priority, kind_of, applies_to_of, path_of, may_bind_link, priority_of, target_of};
ghost use Rattle.apparmor_rules.specs.Restatement.{has_priority};

use crate::AppliesTo;
use crate::priority::is_zero;
use apparmor_text::{Part, PartKind};
use apparmor_words::{Letters, letters_of};
use names::{Permission, Perms, RuleKind};

/// A word without its quotes.
pub fn content(bytes: &[u8]) -> &[u8]
    ensures { result.now ≡ content bytes.now }
{
    match bytes {
        [b'"', inside @ ..] => inside.split_at(bytes.len().saturating_sub(2)).0,
        _ => bytes,
    }
}

/// What a file rule says.
#[derive(Clone, Copy, Debug)]
pub struct RuleWords<'t> {
    pub kind: RuleKind,
    pub applies_to: AppliesTo,
    /// The permissions of its letters.
    pub perms: Perms,
    /// The letters that are written.
    pub letters: Letters,
    /// The path's text. The word `file` by itself has none.
    pub path: Option<&'t [u8]>,
    /// What link is bound to.
    pub target: Option<&'t [u8]>,
    /// Whether its priority isn't 0.
    pub has_priority: bool,
}

fn denies(parts: &[Part<'_>]) -> bool
    ensures { result ≡ has_part is_deny parts.now }
{
    parts
        .iter()
        .any(|part| matches!(part.kind(), PartKind::Deny))
}

fn is_for_owners(parts: &[Part<'_>]) -> bool
    ensures { result ≡ has_part is_owner parts.now }
{
    parts
        .iter()
        .any(|part| matches!(part.kind(), PartKind::Owner))
}

fn is_for_others(parts: &[Part<'_>]) -> bool
    ensures { result ≡ has_part is_other parts.now }
{
    parts
        .iter()
        .any(|part| matches!(part.kind(), PartKind::Other))
}

/// Whether the word `link` is there.
pub(crate) fn is_link_rule(parts: &[Part<'_>]) -> bool
    ensures { result ≡ has_part is_link parts.now }
{
    parts
        .iter()
        .any(|part| matches!(part.kind(), PartKind::Link))
}

/// Whether letters are written.
fn has_letters(parts: &[Part<'_>]) -> bool
    ensures { result ≡ has_part is_permissions parts.now }
{
    parts
        .iter()
        .any(|part| matches!(part.kind(), PartKind::Permissions))
}

/// The word that is the path.
fn path_word<'t>(parts: &[Part<'t>]) -> Option<&'t [u8]>
    ensures { option_map (λ bytes. bytes.now) result ≡ first_bytes is_path parts.now }
{
    let part = parts
        .iter()
        .find(|part| matches!(part.kind(), PartKind::Path))?;
    Some(part.bytes())
}

/// The word of permissions.
fn permissions_word<'t>(parts: &[Part<'t>]) -> Option<&'t [u8]>
    ensures { option_map (λ bytes. bytes.now) result ≡ first_bytes is_permissions parts.now }
{
    let part = parts
        .iter()
        .find(|part| matches!(part.kind(), PartKind::Permissions))?;
    Some(part.bytes())
}

/// An arrow and the word after it.
fn arrow_of<'t>(parts: &[Part<'t>]) -> Option<&'t [u8]>
    ensures { option_map (λ bytes. bytes.now) result ≡ first_bytes is_arrow_part parts.now }
{
    let part = parts
        .iter()
        .find(|part| matches!(part.kind(), PartKind::Arrow))?;
    Some(part.bytes())
}

/// The word after an arrow.
fn target_text(arrow: &[u8]) -> &[u8]
    ensures { result.now ≡ target_text arrow.now }
{
    match arrow {
        [_, _, behind @ ..] => content(past_blank(behind)),
        _ => &[],
    }
}

/// What follows white space and comments.
fn past_blank(bytes: &[u8]) -> &[u8]
    ensures { result.now ≡ past_blank false bytes.now }
{
    let mut rest = bytes;
    let mut comment = false;
    while let [byte, more @ ..] = rest {
        match byte {
            b'\n' => comment = false,
            b'#' => comment = true,
            b' ' | b'\t' | b'\r' => {}
            _ if comment => {}
            _ => break,
        }
        rest = more;
    }
    rest
}

/// Whether the permissions come before the path.
fn permissions_lead(parts: &[Part<'_>]) -> bool
    ensures { result ≡ permissions_lead parts.now }
{
    for part in parts {
        match part.kind() {
            PartKind::Path => return false,
            PartKind::Permissions => return true,
            _ => {}
        }
    }
    false
}

/// The priority, as it is written.
fn priority_word<'t>(parts: &[Part<'t>]) -> Option<&'t [u8]>
    ensures { option_map (λ bytes. bytes.now) result ≡ first_bytes is_priority parts.now }
{
    let part = parts
        .iter()
        .find(|part| matches!(part.kind(), PartKind::Priority))?;
    Some(part.bytes())
}

/// Whether the rule's priority isn't 0.
fn has_priority(parts: &[Part<'_>]) -> bool
    ensures { result ≡ has_priority (priority_of parts.now) }
{
    match priority_word(parts) {
        Some(bytes) => !is_zero(bytes),
        None => false,
    }
}

fn kind_of(parts: &[Part<'_>]) -> RuleKind
    ensures { result ≡ kind_of parts.now }
{
    if denies(parts) {
        RuleKind::Deny
    } else {
        RuleKind::Allow
    }
}

fn applies_to_of(parts: &[Part<'_>]) -> AppliesTo
    ensures { result ≡ applies_to_of parts.now }
{
    if is_for_owners(parts) {
        AppliesTo::Owners
    } else if is_for_others(parts) {
        AppliesTo::Others
    } else {
        AppliesTo::Everybody
    }
}

/// The letters that are written.
fn letters_in(parts: &[Part<'_>]) -> Letters
    ensures { result ≡ letters_in parts.now }
{
    match permissions_word(parts) {
        Some(word) => letters_of(word).unwrap_or(Letters::none()),
        None => Letters::none(),
    }
}

/// Every permission.
fn all_perms() -> Perms
    ensures { result ≡ set_of (λ p. true) }
{
    Perms::NONE
        .with(Permission::Read)
        .with(Permission::Write)
        .with(Permission::Link)
        .with(Permission::Lock)
        .with(Permission::Map)
        .with(Permission::Append)
}

/// The permissions of a rule's letters; if none are written, `l` after the word `link`, and all after `file`.
fn perms_of(parts: &[Part<'_>], letters: Letters) -> Perms
    requires { letters ≡ letters_in parts.now }
    ensures { result ≡ perms_of_rule parts.now }
{
    if is_link_rule(parts) {
        Perms::NONE.with(Permission::Link)
    } else if has_letters(parts) {
        letters.perms
    } else {
        all_perms()
    }
}

/// Whether an arrow would bind link, where the rule has these permissions.
pub(crate) fn may_bind_link(parts: &[Part<'_>], perms: Perms) -> bool
    requires { perms ≡ perms_of_rule parts.now }
    ensures { result ≡ may_bind_link parts.now }
{
    is_link_rule(parts) || (permissions_lead(parts) && perms.contains(Permission::Link))
}

/// What link is bound to, where the rule has these permissions.
fn target_of<'t>(parts: &[Part<'t>], perms: Perms) -> Option<&'t [u8]>
    requires { perms ≡ perms_of_rule parts.now }
    ensures { option_map (λ text. text.now) result ≡ target_of parts.now }
{
    if may_bind_link(parts, perms) {
        arrow_of(parts).map(target_text)
    } else {
        None
    }
}

impl<'t> RuleWords<'t> {
    ghost use Rattle.std.specs.Prelude.{◌≡◌, option_map};
    ghost use Rattle.apparmor_rules.specs.RuleWords.{kind_of, applies_to_of, perms_of_rule, letters_in, path_of, priority_of, target_of};
    ghost use Rattle.apparmor_rules.specs.Restatement.{has_priority};

    /// What the rule of these parts says.
    pub fn of(parts: &[Part<'t>]) -> RuleWords<'t>
        ensures kind { result.kind ≡ kind_of parts.now }
        ensures applies_to { result.applies_to ≡ applies_to_of parts.now }
        ensures perms { result.perms ≡ perms_of_rule parts.now }
        ensures letters { result.letters ≡ letters_in parts.now }
        ensures path { option_map (λ text. text.now) result.path ≡ path_of parts.now }
        ensures target { option_map (λ text. text.now) result.target ≡ target_of parts.now }
        ensures has_priority { result.has_priority ≡ has_priority (priority_of parts.now) }
    {
        let letters = letters_in(parts);
        let perms = perms_of(parts, letters);
        RuleWords {
            kind: kind_of(parts),
            applies_to: applies_to_of(parts),
            perms,
            letters,
            path: path_word(parts).map(content),
            target: target_of(parts, perms),
            has_priority: has_priority(parts),
        }
    }
}
