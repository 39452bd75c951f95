//! Profiles of texts.
ghost use Rattle.std.specs.Prelude.{IfOk};
ghost use Rattle.rule_profile.specs.Profile.{profile_value};
ghost use Rattle.std.specs.Arc.{arc_value};
ghost use Rattle.rule_reader.specs.Grammar.{ReadsAs};
ghost use Rattle.storm_parts.specs.Profiles.{IsCompiledFrom};

use crate::call::Call;
use crate::difference::{Difference, How, expect};
use crate::retry::{again, expect_ok};
use matcher::{AnyProfile, CompiledProfile, MakeFault};
use rule_reader::{Profile, ReadFault, read};
use std::alloc::Global;
use std::sync::Arc;

/// Reads a text.
pub fn read_text(alloc: Global, text: &[u8]) -> Result<Profile, Difference>
    ensures { IfOk result (λ profile. ReadsAs text.now (profile_value profile)) }
{
    again(Call::Read, ReadFault::NoMemory, || read(alloc, text))
}

/// The profile of a text, compiled. It is read again where memory is refused, since a call that is refused drops it.
pub fn compiled_of(alloc: Global, text: &[u8]) -> Result<CompiledProfile, Difference>
    ensures { IfOk result (λ compiled. ReadsAs text.now (profile_value compiled.profile)) }
{
    match CompiledProfile::make(alloc, read_text(alloc, text)?) {
        Ok(compiled) => Ok(compiled),
        Err(fault) => {
            expect(
                fault == MakeFault::NoMemory,
                Call::MakeCompiledProfile,
                How::Fails,
            )?;
            let compiled = CompiledProfile::make(alloc, read_text(alloc, text)?);
            expect_ok(Call::MakeCompiledProfile, compiled)
        }
    }
}

/// The same, as a policy shares it.
pub fn shared_of(alloc: Global, text: &[u8]) -> Result<Arc<AnyProfile>, Difference>
    ensures { IfOk result (λ shared. IsCompiledFrom text.now (arc_value shared)) }
{
    match Arc::new(alloc, AnyProfile::Compiled(compiled_of(alloc, text)?)) {
        Ok(profile) => Ok(profile),
        Err(_) => {
            let profile = Arc::new(alloc, AnyProfile::Compiled(compiled_of(alloc, text)?));
            expect_ok(Call::ShareProfile, profile)
        }
    }
}
