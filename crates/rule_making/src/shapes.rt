//! What items begin and end with.
ghost use Rattle.std.specs.Prelude.{◌≡◌, ◌++◌};
ghost use Rattle.rule_globs.specs.Tokens.{tokens, tokens_of};
ghost use Rattle.rule_profile.specs.PathTokens.{is_plain_slash};
ghost use Rattle.rule_profile.specs.Readable.{is_run, begins_with_run, begins_with_slash};
ghost use Rattle.rule_making.specs.Leads.{ends_with, gives_slash, stands_alone};

use rule_globs::Item;

/// Whether the first item is a slash that stands for itself.
pub(crate) fn begins_with_slash(items: &[Item]) -> bool
    ensures { result ≡ begins_with_slash (tokens_of items.now) }
{
    matches!(items, [Item::Byte(b'/'), ..])
}

fn begins_with_run(items: &[Item]) -> bool
    ensures { result ≡ begins_with_run (tokens_of items.now) }
{
    matches!(items, [Item::Stars(_), ..])
}

fn ends_with_slash(items: &[Item]) -> bool
    ensures { result ≡ ends_with is_plain_slash (tokens_of items.now) }
{
    match items {
        [] => false,
        [.., last] => is_slash(last),
    }
}

fn is_slash(item: &Item) -> bool
    ensures { result ≡ ends_with is_plain_slash (tokens item.now) }
{
    match item {
        Item::Byte(byte) => *byte == b'/',
        _ => false,
    }
}

fn ends_with_run(items: &[Item]) -> bool
    ensures { result ≡ ends_with is_run (tokens_of items.now) }
{
    match items {
        [] => false,
        [.., last] => is_run(last),
    }
}

fn is_run(item: &Item) -> bool
    ensures { result ≡ ends_with is_run (tokens item.now) }
{
    matches!(item, Item::Stars(_))
}

/// Whether the alternative can give its slash to the front of the group.
pub(crate) fn gives_slash(alternative: &[Item]) -> bool
    ensures { result ≡ gives_slash (tokens_of alternative.now) }
{
    match alternative {
        [Item::Byte(b'/'), others @ ..] => !begins_with_run(others),
        _ => false,
    }
}

/// Whether a slash is first in the alternative with what follows the group.
fn slash_stands_first(alternative: &[Item], follow: &[Item]) -> bool
    ensures { result ≡ begins_with_slash (tokens_of alternative.now ++ tokens_of follow.now) }
{
    if alternative.is_empty() {
        begins_with_slash(follow)
    } else {
        begins_with_slash(alternative)
    }
}

/// Whether the alternative makes a path of its own with what follows the group.
pub(crate) fn stands_alone(follow: &[Item], alternative: &[Item]) -> bool
    ensures { result ≡ stands_alone (tokens_of follow.now) (tokens_of alternative.now) }
{
    slash_stands_first(alternative, follow)
        && !ends_with_run(alternative)
        && !begins_with_run(follow)
        && !(ends_with_slash(alternative) && begins_with_slash(follow))
}
