//! Endings as the transcript has them.
use crate::ends::Ending;
use std::alloc::{AllocError, Global};
use std::io;
use std::io::Write;

/// The least number of equal bytes that are written by their number.
const MANY: usize = 64;

/// The number of runs of words on a line.
const RUNS_ON_LINE: usize = 16;

/// Writes how a command ended.
pub(crate) fn show_ending<W: Write>(
    alloc: Global,
    ending: &Ending,
    output: &mut W,
) -> io::Result<()> {
    show_bytes(alloc, &ending.answers, output)?;
    if !ending.faults.is_empty() {
        write!(output, "--- standard error\n")?;
        show_bytes(alloc, &ending.faults, output)?;
    }
    match ending.status.code() {
        0 => Ok(()),
        code => write!(output, "--- status {code}\n"),
    }
}

/// Writes what a command wrote: an image as words, and anything else as lines.
fn show_bytes<W: Write>(alloc: Global, bytes: &[u8], output: &mut W) -> io::Result<()> {
    if bytes.contains(&0) && bytes.len() % 4 == 0 {
        return show_image(&words_of(alloc, bytes)?, output);
    }
    show_lines(bytes, output)?;
    if bytes.is_empty() || bytes.ends_with(b"\n") {
        Ok(())
    } else {
        write!(output, "<<end>>\n")
    }
}

/// Writes lines, with what isn't text in them by its numbers.
fn show_lines<W: Write>(bytes: &[u8], output: &mut W) -> io::Result<()> {
    for chunk in bytes.chunk_by(|a, b| is_text(*a) == is_text(*b)) {
        if is_text(chunk.first().copied().unwrap_or(b' ')) {
            show_text(chunk, output)?;
        } else {
            write!(output, "<<bytes")?;
            show_numbers(chunk, output)?;
            write!(output, ">>")?;
        }
    }
    Ok(())
}

fn is_text(byte: u8) -> bool {
    byte == b'\n' || byte == b'\t' || (b' '..=b'~').contains(&byte)
}

/// Writes text, and many equal bytes of it by their number.
fn show_text<W: Write>(text: &[u8], output: &mut W) -> io::Result<()> {
    for run in text.chunk_by(|a, b| a == b) {
        if run.len() < MANY {
            output.write_all(run)?;
        } else {
            write!(output, "<<{} ", run.len())?;
            output.write_all(run.get(..1).unwrap_or(run))?;
            write!(output, ">>")?;
        }
    }
    Ok(())
}

/// Writes bytes by their numbers.
fn show_numbers<W: Write>(bytes: &[u8], output: &mut W) -> io::Result<()> {
    for byte in bytes {
        write!(output, " {byte}")?;
    }
    Ok(())
}

/// The words of an image, the lowest byte of each first.
fn words_of(alloc: Global, image: &[u8]) -> Result<Vec<u32>, AllocError> {
    let mut words = Vec::new(alloc);
    for word in image.chunks(4) {
        let mut bytes = [0; 4];
        for (to, from) in bytes.iter_mut().zip(word) {
            *to = *from;
        }
        words.push(u32::from_le_bytes(bytes))?;
    }
    Ok(words)
}

/// Writes an image by its words, and equal ones by how many they are.
fn show_image<W: Write>(words: &[u32], output: &mut W) -> io::Result<()> {
    write!(output, "<<words")?;
    let mut place: usize = 0;
    for run in words.chunk_by(|a, b| a == b) {
        let blank = if place % RUNS_ON_LINE == 0 { '\n' } else { ' ' };
        place = place.wrapping_add(1);
        let word = run.first().copied().unwrap_or(0);
        match run.len() {
            1 => write!(output, "{blank}{word}")?,
            count => write!(output, "{blank}{count}*{word}")?,
        }
    }
    write!(output, ">>\n")
}
