//! What restating rules changes. To whom a rule applies follows apparmor_parser's tables, which keep the owner's permissions
//! separate from the others'.
use apparmor_rules::{AppliesTo, Effect, Extent, Mode, RuleShape, Subject, restated_perms};
use names::{Permission, Perms, RuleKind};
use std::test::Fail;

fn allow(applies_to: AppliesTo, letters: &str) -> Result<RuleShape, Fail> {
    Ok(RuleShape {
        kind: RuleKind::Allow,
        applies_to,
        perms: Perms::from_letters(letters.as_bytes()).ok_or("letters")?,
        has_target: false,
        is_read: true,
        has_priority: false,
    })
}

fn with_target(shape: RuleShape) -> RuleShape {
    RuleShape {
        has_target: true,
        ..shape
    }
}

fn unread(shape: RuleShape) -> RuleShape {
    RuleShape {
        is_read: false,
        ..shape
    }
}

#[test]
fn link_to_a_target_is_left_out(rt: HostRuntime) -> Result<(), Fail> {
    let some = Perms::from_letters(b"rl").ok_or("letters")?;
    assert!(rt; restated_perms(some, true) == Perms::NONE.with(Permission::Read));
    assert!(rt; restated_perms(some, false) == some);
    Ok(())
}

#[test]
fn a_strict_restating_is_for_the_chosen_subject(rt: HostRuntime) -> Result<(), Fail> {
    let owners = allow(AppliesTo::Owners, "rw")?;
    assert!(rt; Effect::of(Subject::Owner, owners).is_strictly_exact());
    assert!(rt; owners.change(Subject::Owner, Subject::Owner.other()) == Extent::Wider);
    assert!(rt; !Effect::of(Subject::Owner, unread(owners)).is_strictly_exact());
    assert!(rt; !AppliesTo::Owners.applies_to(Subject::Other));
    Ok(())
}

#[test]
fn qualifier_and_target_are_told_apart(rt: HostRuntime) -> Result<(), Fail> {
    let both = with_target(allow(AppliesTo::Owners, "rl")?);
    let whole = Effect::of(Subject::Owner, both);
    let qualifier = Effect::of(Subject::Owner, both.qualifier_alone()).to_string(rt.alloc())?;
    let target = Effect::of(Subject::Owner, both.for_everybody()).to_string(rt.alloc())?;
    assert!(rt; whole.on_chosen == Extent::Narrower && whole.on_other == Extent::Wider);
    assert!(rt; qualifier.as_str() == "wider for others", "{qualifier}");
    assert!(rt; target.as_str() == "narrower", "{target}");
    Ok(())
}

#[test]
fn a_mode_is_told(rt: HostRuntime) -> Result<(), Fail> {
    let enforced = Mode::Enforcing
        .effect(Subject::Other)
        .to_string(rt.alloc())?;
    let permitted = Mode::Permissive
        .effect(Subject::Owner)
        .to_string(rt.alloc())?;
    assert!(rt; enforced.as_str() == "exact", "{enforced}");
    assert!(rt; permitted.as_str() == "narrower", "{permitted}");
    assert!(rt; !Mode::Unconfined.effect(Subject::Owner).is_strictly_exact());
    Ok(())
}
