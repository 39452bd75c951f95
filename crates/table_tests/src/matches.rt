//! Names judged by compiled profiles and by loaded ones.
use matcher::{
    AnyProfile, CompiledProfile, LoadedProfile, MakeFault, PolicyChange, judge, run, table_of,
    tables_of_rules_tell_their_verdicts,
};
use names::{Permission, Perms};
use rule_text::{Profile, read};
use std::alloc::Global;
use std::process::Abort;
use std::test::Fail;
use table_image::{ImageFault, to_bytes, to_bytes_v1};
use table_verifier::{LookUps, Steps, VerifiedTable};

mod agreement;
mod batches;
mod cells;
mod creation;
mod same_verdicts;

// `profile p {`, these rules and `}`, read.
fn profile_of(alloc: Global, rules: &[u8]) -> Result<Profile, Fail> {
    let mut text = b"profile p {".to_vec(alloc)?;
    text.extend_from_slice(rules)?;
    text.extend_from_slice(b"}")?;
    Ok(read(alloc, &text)?)
}

fn compiled_of(alloc: Global, rules: &[u8]) -> Result<CompiledProfile, Fail> {
    let profile = profile_of(alloc, rules)?;
    Ok(CompiledProfile::make(alloc, profile)?)
}

// The image of a profile's table: in version 1, if that can hold it.
fn image_of(alloc: Global, profile: &Profile) -> Result<Vec<u8>, Fail> {
    let table = table_of(alloc, profile)?;
    if table.fits_version_1() {
        return Ok(to_bytes_v1(alloc, &table)?);
    }
    Ok(to_bytes(alloc, &table)?)
}

// The profile that is loaded from the image of a compiled one's table.
fn loaded_of(alloc: Global, compiled: &CompiledProfile) -> Result<LoadedProfile, Fail> {
    let image = image_of(alloc, compiled.profile())?;
    Ok(LoadedProfile::make(alloc, &image)?)
}
