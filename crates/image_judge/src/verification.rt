//! Verifying of images.
ghost use Rattle.std.specs.Prelude.{◌≡◌};
ghost use Rattle.image_judge.specs.Answers.{IsCountsOf, IsNoneOrLoaded, IsVerified};

use table_verifier::{VerifiedImage, verify_image};

/// The first fault of an image.
#[repr(C)]
#[derive(Clone, Copy, Debug, PartialEq, Eq)]
pub struct Fault {
    /// Its number, 1 to 10 or 12; 0 if there is none.
    pub number: u16,
    /// The state or cell of the faults 7 to 10 and 12; otherwise 0.
    pub place: u32,
}

/// The numbers of an image's parts.
#[repr(C)]
#[derive(Clone, Copy, Debug, PartialEq, Eq)]
pub struct Counts {
    pub states: u32,
    pub cells: u32,
    pub records: u32,
}

/// Accepts an image from any source if no index leaves its tables; otherwise returns its first fault.
pub fn verify(image: &[u8]) -> Fault
    ensures { IsVerified image.now result }
{
    match verify_image(image) {
        Ok(_) => Fault {
            number: 0,
            place: 0,
        },
        Err(fault) => Fault {
            number: fault.number(),
            place: fault.index().unwrap_or(0),
        },
    }
}

/// How many states, cells and records an accepted image has; all 0 for no bytes.
pub fn count(image: &[u8]) -> Counts
    requires { IsNoneOrLoaded image.now }
    ensures { IsCountsOf image.now result }
{
    if image.is_empty() {
        return Counts {
            states: 0,
            cells: 0,
            records: 0,
        };
    }
    let image = VerifiedImage::accepted(image);
    Counts {
        states: image.states(),
        cells: image.cells(),
        records: image.records(),
    }
}
