//! What sessions may ask.
use names::{Permission, Perms};
use std::alloc::{AllocError, Global};
use test_parts::{NumberedPath, Random};

// The number of paths that are opened.
const PATHS: usize = 64;

// The number of sets of permissions that each is opened for.
const ASKS: usize = 6;

/// How many questions there are.
pub const QUESTIONS: usize = PATHS * ASKS;

// What follows the components of a path.
const TAILS: [&str; 12] = ["", "", "", "", "", "", "", "/", "/.", "/..", "/../a", "//b"];

/// A path, and what it is opened for.
#[derive(Drop)]
pub struct Question {
    pub path: Vec<u8>,
    pub ask: Perms,
}

/// Draws the questions of a storm.
pub fn draw_questions(alloc: Global, random: &mut Random) -> Result<Vec<Question>, AllocError> {
    let mut questions = Vec::new(alloc);
    for _ in 0..PATHS {
        let path = path(alloc, random)?;
        push_asks(alloc, random, &path, &mut questions)?;
    }
    Ok(questions)
}

fn path(alloc: Global, random: &mut Random) -> Result<Vec<u8>, AllocError> {
    let numbered = NumberedPath::new(random.path());
    let mut path = Vec::from_slice(alloc, numbered.as_bytes())?;
    path.extend_from_slice(TAILS[random.below(TAILS.len())].as_bytes())?;
    Ok(path)
}

fn push_asks(
    alloc: Global,
    random: &mut Random,
    path: &[u8],
    questions: &mut Vec<Question>,
) -> Result<(), AllocError> {
    for _ in 0..ASKS {
        questions.push(Question {
            path: Vec::from_slice(alloc, path)?,
            ask: ask(random),
        })?;
    }
    Ok(())
}

// Now and then nothing, or to link, which no open may ask for.
fn ask(random: &mut Random) -> Perms {
    let mut ask = Perms::NONE;
    for permission in &Permission::ALL {
        let often = match permission {
            Permission::Read => 12,
            Permission::Write | Permission::Lock | Permission::Map | Permission::Append => 4,
            Permission::Link => 1,
        };
        if random.below(20) < often {
            ask = ask.with(*permission);
        }
    }
    ask
}
