//! The texts that have the profiles.
ghost use Rattle.std.specs.Prelude.{◌≡◌, ◌⊎◌, IfErr, IfOk, map};
ghost use Rattle.trace_audit.specs.Audit.{AreTexts};
ghost use Rattle.trace_audit.specs.inner.FoundValues.{text_value};
ghost use Rattle.trace_report.specs.ReadStreams.{IsTextRead};

use crate::lookup::ProfileText;
use named_texts::NamedTexts;
use std::alloc::Global;
use trace_report::{Fault, read_all};

/// The text with this name.
fn text_named<T: NamedTexts>(alloc: Global, texts: &T, name: &str) -> Result<Vec<u8>, Fault>
    ensures { IsTextRead (T.known texts.now name.now) result }
{
    match texts.open(name) {
        Ok(mut text) => read_all(alloc, &mut text),
        Err(error) => Err(Fault::from(error)),
    }
}

/// The texts with these names, or that one can't be read.
pub(crate) fn texts_named<'a, T: NamedTexts>(
    alloc: Global,
    texts: &T,
    names: &[&'a str],
) -> Result<Vec<ProfileText<'a>>, Fault>
    ensures ok { IfOk result (λ read. AreTexts (T.known texts.now) (map (λ name. name.now) names.now) (map text_value read.items)) }
    ensures err { IfErr result (λ fault. (fault ≡ Fault.Input) ⊎ (fault ≡ Fault.Memory)) }
{
    let mut read = Vec::new(alloc);
    for name in names {
        let text = text_named(alloc, texts, name)?;
        match read.push(ProfileText { name, text }) {
            Ok(()) => {}
            Err(_) => return Err(Fault::Memory),
        }
    }
    Ok(read)
}
