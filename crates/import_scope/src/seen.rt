//! The variables as they are seen in a profile.
ghost use Rattle.std.specs.Prelude.{◌≡◌, ◌∷◌, [], IfOk, codes};
ghost use Rattle.import_scope.specs.FirstFaults.{variables_within};

use apparmor_variables::{Lists, Variable};
use names::NoMemory;
use std::alloc::{AllocError, Global};

/// The same variable, whose values are lent for a shorter time.
fn copied<'a>(alloc: Global, variable: &'a Variable<'_>) -> Result<Variable<'a>, AllocError>
    ensures { IfOk result (λ v. v ≡ variable.now) }
{
    let mut values = Vec::new(alloc);
    for value in variable.values() {
        values.push(*value)?;
    }
    match Variable::new(alloc, variable.name(), values) {
        Ok(copy) => Ok(copy),
        Err(_) => Err(AllocError),
    }
}

/// The variable `profile_name` in a profile with this full name.
fn profile_name<'a>(alloc: Global, full_name: &'a [u8]) -> Result<Variable<'a>, AllocError>
    ensures { IfOk result (λ v. v ≡ record { name = codes "profile_name"; values = full_name.now ∷ [] }) }
{
    let mut values = Vec::new(alloc);
    values.push(full_name)?;
    match Variable::new(alloc, b"profile_name", values) {
        Ok(variable) => Ok(variable),
        Err(_) => Err(AllocError),
    }
}

fn variables_within<'a>(
    alloc: Global,
    variables: &'a [Variable<'_>],
    full_name: &'a [u8],
) -> Result<Vec<Variable<'a>>, AllocError>
    ensures { IfOk result (λ seen. seen.items ≡ variables_within variables.now full_name.now) }
{
    let mut seen = Vec::new(alloc);
    seen.push(profile_name(alloc, full_name)?)?;
    for variable in variables {
        seen.push(copied(alloc, variable)?)?;
    }
    Ok(seen)
}

/// The variables as they are in a profile with this full name, with no list made yet: `profile_name`, and then these. So
/// `set_first` turns them into what they are in another profile.
///
/// They are copied, without the bytes of their values.
pub fn lists_of<'a>(
    alloc: Global,
    variables: &'a [Variable<'_>],
    full_name: &'a [u8],
) -> Result<Lists<'a>, NoMemory>
    ensures { IfOk result (λ lists. lists ≡ variables_within variables.now full_name.now) }
{
    match variables_within(alloc, variables, full_name) {
        Ok(seen) => Lists::new(alloc, seen),
        Err(_) => Err(NoMemory),
    }
}
