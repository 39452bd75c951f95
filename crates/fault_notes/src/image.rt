//! Notes on an image.
ghost use Rattle.std.specs.Prelude.{◌≡◌, IfOk, string_bytes};
ghost use Rattle.fault_notes.specs.ImageNotes.{IsImageNotes, header_said, image_said};

use crate::sentence::{ended, numbered, sentence};
use names::NoMemory;
use std::alloc::Global;
use table_verifier::verify_image;
use tables::ImageFault;

/// What is said about an image that `check` or `match` refuses: a sentence about its first fault. Nothing about one without a
/// fault.
pub fn image_notes(alloc: Global, image: &[u8]) -> Result<Vec<u8>, NoMemory>
    ensures { IfOk result (λ notes. IsImageNotes image.now notes.items) }
{
    match verify_image(image) {
        Ok(_) => Ok(Vec::new(alloc)),
        Err(fault) => {
            let said = image_said(alloc, fault)?;
            ended(alloc, &said)
        }
    }
}

/// A fault of an image in words.
fn image_said(alloc: Global, fault: ImageFault) -> Result<String, NoMemory>
    ensures { IfOk result (λ said. string_bytes said ≡ image_said fault) }
{
    match fault {
        ImageFault::Default { state } => {
            numbered(alloc, "the default of state ", state.into(), " is no state")
        }
        ImageFault::Base { state } => numbered(
            alloc,
            "the row of 256 cells of state ",
            state.into(),
            " ends after the last cell",
        ),
        ImageFault::Accept { state } => {
            numbered(alloc, "the accept of state ", state.into(), " is no record")
        }
        ImageFault::Next { cell } => {
            numbered(alloc, "the next of cell ", cell.into(), " is no state")
        }
        ImageFault::Depth { state } => numbered(
            alloc,
            "the depth of state ",
            state.into(),
            " is over the bound, or is over 0 and not over that of its default",
        ),
        fault => header_said(alloc, fault),
    }
}

/// A fault of an image's header in words.
fn header_said(alloc: Global, fault: ImageFault) -> Result<String, NoMemory>
    ensures { IfOk result (λ said. string_bytes said ≡ header_said fault) }
{
    match fault {
        ImageFault::Short => sentence(
            alloc,
            "an image has a header of 20 bytes, and here are fewer",
        ),
        ImageFault::Magic => sentence(alloc, "an image begins with the four bytes PTAB"),
        ImageFault::Version => sentence(
            alloc,
            "the version is 1 or 2: bytes 4 and 5, the lower first",
        ),
        ImageFault::Reserved => sentence(alloc, "in version 1 the bytes 6 and 7 are 0"),
        ImageFault::Counts => sentence(
            alloc,
            "a count is out of its limits: 2 to 65,536 states, 256 to 16,777,216 cells, 1 to 65,536 records",
        ),
        ImageFault::Length => sentence(
            alloc,
            "the image isn't as long as the counts of its header say",
        ),
        _ => sentence(alloc, ""),
    }
}
