//! The profiles that are published.
use matcher::{AnyProfile, CompiledProfile};
use rule_reader::read;
use std::alloc::{AllocError, Global};
use std::sync::Arc;
use test_parts::Random;

/// The names that profiles are published under.
#[derive(Clone, Copy)]
pub enum ProfileName {
    P,
    Q,
    S,
    T,
}

impl ProfileName {
    /// Draws one of them.
    pub fn draw(random: &mut Random) -> ProfileName {
        match random.below(4) {
            0 => ProfileName::P,
            1 => ProfileName::Q,
            2 => ProfileName::S,
            _ => ProfileName::T,
        }
    }

    /// Its bytes.
    pub fn as_bytes(self) -> &'static [u8] {
        match self {
            ProfileName::P => b"p",
            ProfileName::Q => b"q",
            ProfileName::S => b"s",
            ProfileName::T => b"t",
        }
    }
}

/// How many profiles are drawn, each of which may be published under each name.
pub const PROFILES: usize = 24;

// What the paths of rules are made of.
const COMPONENTS: [&str; 14] = [
    "a",
    "b",
    "c",
    "d",
    "e",
    "*",
    "*",
    "?",
    "[a-c]",
    "[^e]",
    "{a,b/c,d}",
    "**",
    "**",
    "**",
];

// What they end in: often what matches many names.
const ENDS: [&str; 8] = ["/**", "/**", "/**", "/*", "/*", "/a", "/[b-d]", "/{e,?/a}"];

const LETTERS: [&str; 8] = ["r", "w", "a", "ra", "rw", "rwk", "rwkm", "rwlkm"];

/// Draws the profiles of a storm.
pub fn draw_profiles(
    alloc: Global,
    random: &mut Random,
) -> Result<Vec<Arc<AnyProfile>>, AllocError> {
    let mut profiles = Vec::new(alloc);
    for _ in 0..PROFILES {
        let text = text(alloc, random)?;
        profiles.push(compiled(alloc, &text)?)?;
    }
    Ok(profiles)
}

// A profile of at most six rules.
fn text(alloc: Global, random: &mut Random) -> Result<Vec<u8>, AllocError> {
    let mut text = Vec::from_slice(alloc, b"profile drawn {\n")?;
    for _ in 0..=random.below(6) {
        push_rule(&mut text, random)?;
    }
    text.extend_from_slice(b"}\n")?;
    Ok(text)
}

fn push_rule(text: &mut Vec<u8>, random: &mut Random) -> Result<(), AllocError> {
    if random.below(4) == 0 {
        text.extend_from_slice(b"deny ")?;
    }
    for _ in 0..random.below(3) {
        text.push(b'/')?;
        text.extend_from_slice(COMPONENTS[random.below(COMPONENTS.len())].as_bytes())?;
    }
    text.extend_from_slice(ENDS[random.below(ENDS.len())].as_bytes())?;
    text.push(b' ')?;
    text.extend_from_slice(LETTERS[random.below(LETTERS.len())].as_bytes())?;
    Ok(text.extend_from_slice(b",\n")?)
}

/// The profile of a text. Each text that is drawn is one, and a small one, so that only memory can be refused.
pub(crate) fn compiled(alloc: Global, text: &[u8]) -> Result<Arc<AnyProfile>, AllocError> {
    let Ok(profile) = read(alloc, text) else {
        return Err(AllocError);
    };
    let Ok(compiled) = CompiledProfile::make(alloc, profile) else {
        return Err(AllocError);
    };
    Ok(Arc::new(alloc, AnyProfile::Compiled(compiled))?)
}
