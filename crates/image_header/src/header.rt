//! The header of an image, read before the rest of it is there.
ghost use Rattle.std.specs.Prelude.{◌≡◌, ◌≢◌, ◌≤◌, IfOk, IfErr, MatchOption, length};
ghost use Rattle.image_header.specs.Headers.{IsFaultOfAll, IsLengthOfAll};
ghost use Rattle.tables.specs.Images.{HasVersion, IsFirstImageFault, told_length};
ghost use Rattle.tables.specs.declared.fault.ImageFault.TheVariants as fault;
ghost use Rattle.tables.specs.declared.header.Version.{Version};

use byteorder::{ByteOrder, LittleEndian};
use tables::{HEADER_LENGTH, Image, ImageFault, Version, images_are_whole};

/// How many bytes an image has that begins with these bytes, or the first fault of every image that does. Nothing is settled by
/// fewer bytes than the header has.
pub fn image_length(front: &[u8]) -> Result<usize, ImageFault>
    requires header { 20 ≤ length front.now }
    ensures length { IfOk result (IsLengthOfAll front.now) }
    ensures fault { IfErr result (IsFaultOfAll front.now) }
{
    let header = &front[..HEADER_LENGTH];
    match fault_of_header(header) {
        None => Ok(length_by_counts(header, version_of(header))),
        Some(fault) => Err(fault),
    }
}

/// The first fault of a header, apart from what follows it.
fn fault_of_header(header: &[u8]) -> Option<ImageFault>
    requires { length header.now ≡ 20 }
    ensures { MatchOption result (IsFirstImageFault header.now fault.Length)
        (λ f. IsFirstImageFault header.now f × (f ≢ fault.Length)) }
{
    images_are_whole();
    match Image::of(header) {
        // No image is as short as its header.
        Ok(_) | Err(ImageFault::Length) => None,
        Err(fault) => Some(fault),
    }
}

/// The version of a header that has one of the known versions.
fn version_of(header: &[u8]) -> Version
    requires long { length header.now ≡ 20 }
    requires known { (v : Version) × HasVersion header.now v }
    ensures { HasVersion header.now result }
{
    match LittleEndian::read_u16(&header[4..]) {
        1 => Version::First,
        _ => Version::Second,
    }
}

/// The length in bytes of an image of this version with the counts of this header.
fn length_by_counts(header: &[u8], version: Version) -> usize
    requires { length header.now ≡ 20 }
    ensures { result ≡ told_length version header.now }
{
    let states = LittleEndian::read_u32(&header[8..]) as usize;
    let cells = LittleEndian::read_u32(&header[12..]) as usize;
    let records = LittleEndian::read_u32(&header[16..]) as usize;
    match version {
        Version::First => HEADER_LENGTH + 12 * states + 8 * cells + 20 * records,
        // Each state has a depth besides, and each record the hits of append.
        Version::Second => HEADER_LENGTH + 16 * states + 8 * cells + 24 * records,
    }
}
