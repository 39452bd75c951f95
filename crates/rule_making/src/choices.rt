//! Whether groups are choices.
ghost use Rattle.std.specs.Prelude.{◌≡◌};
ghost use Rattle.std.specs.List.{list_all};
ghost use Rattle.rule_making.specs.Choices.{chooses, all_choose};

use rule_globs::Item;

/// Whether each group has two alternatives or more, those within groups too. AppArmor refuses `{a}` and `{}`.
#[cycle(choices)]
pub fn groups_have_alternatives(items: &[Item]) -> bool
    ensures { result ≡ all_choose items.now }
{
    for item in items {
        if !chooses(item) {
            return false;
        }
    }
    true
}

#[cycle(choices)]
fn chooses(item: &Item) -> bool
    ensures { result ≡ chooses item.now }
{
    match item {
        Item::Byte(_) | Item::AnyByte | Item::Class(_) | Item::Stars(_) => true,
        Item::Group(alternatives) => alternatives.len() >= 2 && each_chooses(alternatives),
    }
}

#[cycle(choices)]
fn each_chooses(alternatives: &[Vec<Item>]) -> bool
    ensures { result ≡ list_all (λ items. all_choose items.items) alternatives.now }
{
    for items in alternatives {
        if !groups_have_alternatives(items) {
            return false;
        }
    }
    true
}
