//! Commands, and what they do with a text.
use crate::ends::Ending;
use crate::expand::expanded;
use named_texts::{GivenText, GivenTexts};
use std::alloc::{AllocError, Global};
use std::io;
use std::sync::Wait;
use std::thread::Threads;
use trace_arguments::{LineFault, command_line, spelled_out};
use trace_program::{run_plain, run_words};

/// Runs a command on a text: each part on what the part before it wrote, until one fails.
pub(crate) fn run_command<H: Threads + Wait + Sync>(
    rt: &H,
    alloc: Global,
    command: &str,
    text: &[u8],
) -> io::Result<Ending> {
    let command = String::from_utf8(expanded(alloc, command)?).unwrap_or(String::new(alloc));
    let mut ending = Ending::of_answers(alloc, text)?;
    for part in command.split(" | ") {
        if ending.status.code() == 0 {
            ending = run_part(rt, alloc, &words_of(alloc, part)?, &ending.answers)?;
        }
    }
    Ok(ending)
}

/// The words of a command: what is between blanks, or between double quotes.
fn words_of(alloc: Global, command: &str) -> Result<Vec<&str>, AllocError> {
    let mut words = Vec::new(alloc);
    let mut left = command.trim_start();
    for _ in 0..command.len() {
        if left.is_empty() {
            break;
        }
        let (word, rest) = match left.strip_prefix('"') {
            Some(quoted) => quoted.split_once('"').unwrap_or((quoted, "")),
            None => left.split_once(' ').unwrap_or((left, "")),
        };
        words.push(word)?;
        left = rest.trim_start();
    }
    Ok(words)
}

/// Runs one part of a command, by its words.
fn run_part<H: Threads + Wait + Sync>(
    rt: &H,
    alloc: Global,
    words: &[&str],
    input: &[u8],
) -> io::Result<Ending> {
    match words.first().copied() {
        Some("aa-trace") => run_program(rt, alloc, words, input),
        Some("parse") => parse(alloc, words),
        Some("plain-bench") => Ok(run_in_memory(alloc, number(words, 1), input)),
        Some("set") => set_byte(alloc, number(words, 1), number(words, 2), input),
        Some("first") => first_bytes(alloc, number(words, 1), input),
        _ => Ok(Ending::of_fault(alloc, "no command of a case\n")?),
    }
}

/// The number that a word says, or 0.
fn number(words: &[&str], at: usize) -> usize {
    match words.get(at) {
        Some(word) => word.parse().unwrap_or(0),
        None => 0,
    }
}

fn run_program<H: Threads + Wait + Sync>(
    rt: &H,
    alloc: Global,
    words: &[&str],
    input: &[u8],
) -> io::Result<Ending> {
    let mut ending = Ending::nothing(alloc);
    let mut input = input;
    let given = given_texts(alloc, words)?;
    ending.status = run_words(
        rt,
        alloc,
        &GivenTexts { texts: &given },
        words,
        &mut input,
        &mut ending.answers,
        &mut ending.faults,
    );
    Ok(ending)
}

/// The texts that words may name: each word is the name of itself.
fn given_texts<'a>(alloc: Global, words: &[&'a str]) -> Result<Vec<GivenText<'a>>, AllocError> {
    words
        .iter()
        .map(|word| GivenText {
            name: word,
            text: word.as_bytes(),
        })
        .collect(alloc)
}

/// What the words after the first one ask for, or what is wrong with them.
fn parse(alloc: Global, words: &[&str]) -> io::Result<Ending> {
    let spelled = spelled_out(alloc, words.get(1..).unwrap_or(&[]))?;
    parse_spelled(alloc, &spelled)
}

/// What these words ask for, in which no option is short, or what is wrong with them.
fn parse_spelled(alloc: Global, words: &[&str]) -> io::Result<Ending> {
    match command_line(alloc, words) {
        Ok(line) => {
            let line = format!(in alloc; "{line:?}\n")?;
            Ok(Ending::of_answers(alloc, line.as_bytes())?)
        }
        Err(LineFault::Usage(error)) => {
            let text = error.to_string(alloc)?;
            Ok(Ending::of_fault(alloc, &text)?)
        }
        Err(LineFault::NoMemory) => Ok(Ending::of_fault(alloc, "no memory\n")?),
    }
}

/// Runs a script in plain memory.
fn run_in_memory(alloc: Global, capacity: usize, script: &[u8]) -> Ending {
    let mut ending = Ending::nothing(alloc);
    let mut input = script;
    ending.status = run_plain(
        alloc,
        u32::try_from(capacity).unwrap_or(0),
        &mut input,
        &mut ending.answers,
        &mut ending.faults,
    );
    ending
}

/// The input with another byte in a place.
fn set_byte(alloc: Global, place: usize, byte: usize, input: &[u8]) -> io::Result<Ending> {
    let mut ending = Ending::of_answers(alloc, input)?;
    if let Some(cell) = ending.answers.get_mut(place) {
        *cell = u8::try_from(byte).unwrap_or(0);
    }
    Ok(ending)
}

/// The first `count` bytes of the input, or all if there are fewer.
fn first_bytes(alloc: Global, count: usize, input: &[u8]) -> io::Result<Ending> {
    let kept = input.get(..count).unwrap_or(input);
    Ok(Ending::of_answers(alloc, kept)?)
}
