//! Causes that were met, and whether a name has others.
ghost use Rattle.std.specs.Prelude.{◌≡◌, ◌↔◌, ◌<◌, IfOk, IsTrue, length};
ghost use Rattle.question_answers.specs.declared.cause.Causes.{Causes as SomeCauses};
ghost use Rattle.question_answers.specs.inner.Causes.{AreCauses, AreNoted, AreTold, HasNoted};

use crate::cause::{Causes, causes_of};
use crate::laws::equal_causes_are_one;
use indexmap::IndexSet;
use names::{NoMemory, Permission, Perms, permissions_are_numbered};
use profile_questions::{Answers, Comparison, Records};

// Whether all three say what is wanted.
fn say(records: &Records, answers: Answers) -> bool
    ensures { IsTrue result ↔ AreTold answers records.now }
{
    answers.first.is_told_by(&records.first)
        && answers.second.is_told_by(&records.second)
        && answers.third.is_told_by(&records.third)
}

// Notes causes, and reports whether they are new.
fn insert(seen: &mut IndexSet<Causes>, causes: Causes) -> Result<bool, NoMemory>
    ensures { IfOk result (λ new. AreNoted seen.old.keys seen.new.keys new (λ (k : SomeCauses). k ≡ causes)) }
{
    equal_causes_are_one();
    match seen.insert_full(causes) {
        Ok((_, new)) => Ok(new),
        Err(_) => Err(NoMemory),
    }
}

// Notes the causes of all that is asked, and reports whether some of them are new.
fn insert_all(seen: &mut IndexSet<Causes>, records: &Records, ask: Perms) -> Result<bool, NoMemory>
    ensures { IfOk result (λ new. AreNoted seen.old.keys seen.new.keys new (AreCauses records.now ask)) }
{
    permissions_are_numbered();
    let mut new = false;
    for permission in &Permission::ALL {
        if ask.contains(*permission) {
            new |= insert(seen, causes_of(records, *permission))?;
        }
    }
    Ok(new)
}

/// Notes the causes of a representative, if its least hits say what is wanted, and reports whether some of them are new.
pub(crate) fn note(
    seen: &mut IndexSet<Causes>,
    comparison: &Comparison<'_>,
    index: usize,
    answers: Answers,
    ask: Perms,
) -> Result<bool, NoMemory>
    requires { index < length comparison.now.names }
    ensures { IfOk result (λ new. HasNoted comparison.now index answers ask seen.old.keys seen.new.keys new) }
{
    let Some(records) = comparison.records(index) else {
        return Ok(false);
    };
    if say(&records, answers) {
        insert_all(seen, &records, ask)
    } else {
        Ok(false)
    }
}
