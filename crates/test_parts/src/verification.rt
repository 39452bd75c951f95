//! Tables and images that are verified, or why they aren't.
ghost use Rattle.std.specs.Prelude.{IsTrue};
ghost use Rattle.image_judge.specs.Answers.{IsNoneOrLoaded};

use std::test::Fail;
use table_verifier::{VerifiedTable, verify, verify_image};
use tables::{ImageFault, RawTable};

/// The table, verified.
pub fn verified(table: RawTable) -> Result<VerifiedTable, Fail> {
    match verify(table) {
        Ok(verified) => Ok(verified),
        Err((fault, _)) => Err(Fail::from(fault)),
    }
}

/// The fault of a table that isn't accepted.
pub fn fault_of(table: RawTable) -> Option<ImageFault> {
    match verify(table) {
        Ok(_) => None,
        Err((fault, _)) => Some(fault),
    }
}

/// Whether an image is accepted: then names may be judged by it.
pub fn is_accepted(image: &[u8]) -> bool
    ensures { IsTrue result → IsNoneOrLoaded image.now }
{
    verify_image(image).is_ok()
}
