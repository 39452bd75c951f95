//! Images that are read no further than their header says.
ghost use Rattle.std.specs.Prelude.{◌≡◌, ◌⊎◌, ℕ, ◌+◌, ◌≤◌, List, [], ◌++◌, IfErr, OnOk, length};
ghost use Rattle.std.specs.Io.KnownBytes.{Consumes, IsAtEnd};
ghost use Rattle.trace_commands.specs.ReadImages.{ReadsImage};
ghost use Rattle.trace_commands.specs.inner.Answers.{IsImageRead, IsUnread};
ghost use Rattle.trace_report.specs.Streams.{IsTextOf};

use image_header::{HEADER_LENGTH, image_length};
use std::alloc::Global;
use std::io;
use std::io::{ErrorKind, Read};
use tables::ImageFault;
use trace_report::Fault;

/// How many bytes are read at a time, at most.
const PIECE_LENGTH: usize = 8_192;

/// The image, where it is all that is left to read, or why there is none. Nothing is read after a header that has a fault, and no
/// more than one byte after the length that another one gives.
pub(crate) fn read_image<R: Read>(alloc: Global, input: &mut R) -> Result<Vec<u8>, Fault>
    ensures image { IsImageRead (R.remaining input.old) result }
    ensures front { ReadsImage (R.remaining input.old) (R.remaining input.new) }
{
    let mut image = Vec::new(alloc);
    read_into(input, &mut image)?;
    Ok(image)
}

/// Reads the image into an empty vector, or says why there is none.
fn read_into<R: Read>(input: &mut R, image: &mut Vec<u8>) -> Result<(), Fault>
    requires empty { image.old.items ≡ [] }
    ensures all { OnOk result (IsTextOf (R.remaining input.old) image.new.items) }
    ensures unread { IfErr result (IsUnread (R.remaining input.old)) }
    ensures front { ReadsImage (R.remaining input.old) (R.remaining input.new) }
{
    read_up_to(input, HEADER_LENGTH, image)?;
    if image.len() < HEADER_LENGTH {
        return Ok(());
    }
    let length = image_length(image)?;
    read_up_to(input, length + 1, image)?;
    if image.len() > length {
        return Err(Fault::Image(ImageFault::Length));
    }
    Ok(())
}

/// Reads until there are as many bytes as `most`, or nothing is left to read.
fn read_up_to<R: Read>(input: &mut R, most: usize, bytes: &mut Vec<u8>) -> io::Result<()>
    requires { length bytes.old.items ≤ most }
    ensures read { (read : List ℕ) × Consumes (R.remaining input.old) (R.remaining input.new) read
        × (length bytes.old.items + length read ≤ most) × OnOk result (bytes.new.items ≡ bytes.old.items ++ read) }
    ensures end { OnOk result ((length bytes.new.items ≡ most) ⊎ IsAtEnd (R.remaining input.new)) }
{
    let mut piece = [0; PIECE_LENGTH];
    for _ in 0..u64::MAX {
        let room = (most - bytes.len()).min(PIECE_LENGTH);
        if room == 0 {
            return Ok(());
        }
        match input.read(&mut piece[..room]) {
            Ok(0) => return Ok(()),
            Ok(count) => bytes.extend_from_slice(&piece[..count])?,
            Err(error) => {
                if error.kind() != ErrorKind::Interrupted {
                    return Err(error);
                }
            }
        }
    }
    Err(io::Error::from(ErrorKind::TimedOut))
}
