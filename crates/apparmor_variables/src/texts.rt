//! Lists of texts that are neither too many nor too long.
ghost use Rattle.std.specs.Prelude.{◌≡◌, ◌<◌, ◌≤◌, ◌+◌, ◌*◌, ◌∷◌, ◌++◌, [], length, map, slice_get, IfOk, OnOk, IfSome, Some, None};
ghost use Rattle.apparmor_variables.specs.Counts.{list_count, most_list_count};
ghost use Rattle.apparmor_variables.specs.Variables.{most_bytes, fitting, each_with};
ghost use Rattle.apparmor_variables.specs.inner.Gives.{Gives};

use crate::refusal::Refusal;
use std::alloc::{AllocError, Global};
use std::marker::Model;

/// The maximum number of texts that a variable stands for.
pub const MOST_TEXTS: usize = 1024;

/// The maximum number of bytes of a variable's texts in all, and of a path's text.
pub const MOST_BYTES: usize = 16384;

/// What a text of a list counts besides its bytes: some of the memory that it takes.
pub const TEXT_SHARE: usize = 16;

/// Texts; contracts see them as a list of lists of bytes.
#[derive(Drop)]
pub(crate) struct Texts {
    texts: Vec<Vec<u8>>,
    /// The total number of bytes.
    bytes: usize,
}

impl Model for Texts {
    ghost use Rattle.std.specs.Prelude.{◌≡◌, ℕ, ◌≤◌, List, map, length};
    ghost use Rattle.apparmor_variables.specs.Variables.{most_bytes, most_texts, byte_count};

    ghost Value = { List (List ℕ) };

    ghost view = { λ t. map (λ text. text.items) t.texts.items };

    ghost invariant = { λ t. (t.bytes ≡ byte_count (map (λ text. text.items) t.texts.items)) × (length t.texts.items ≤ most_texts)
        × (t.bytes ≤ most_bytes) };
}

impl Texts {
    /// No texts.
    pub(crate) fn none(alloc: Global) -> Texts
        ensures { result ≡ [] }
    {
        Texts {
            texts: Vec::new(alloc),
            bytes: 0,
        }
    }

    /// One empty text.
    pub(crate) fn one_empty(alloc: Global) -> Result<Texts, AllocError>
        ensures { IfOk result (λ texts. texts ≡ [] ∷ []) }
    {
        let mut texts = Vec::new(alloc);
        texts.push(Vec::new(alloc))?;
        Ok(Texts { texts, bytes: 0 })
    }

    /// Returns the number of texts.
    pub(crate) fn len(&self) -> usize
        ensures { result ≡ length self.now }
    {
        self.texts.len()
    }

    /// Returns what these texts count: their bytes, and [`TEXT_SHARE`] for each.
    pub(crate) fn count(&self) -> usize
        ensures count { result ≡ list_count self.now }
        ensures most { result ≤ most_list_count }
    {
        self.bytes + TEXT_SHARE * self.texts.len()
    }

    /// The text at a place.
    pub(crate) fn text(&self, place: usize) -> &[u8]
        requires { place < length self.now }
        ensures { slice_get self.now place ≡ Some result.now }
    {
        self.texts[place].as_slice()
    }

    /// Returns each of these with the bytes appended.
    pub(crate) fn each_with_end(self, end: &[u8]) -> Result<Texts, Refusal>
        ensures { Gives result (fitting (each_with self (end.now ∷ []))) }
    {
        let Texts { mut texts, bytes } = self;
        if end.is_empty() {
            return Ok(Texts { texts, bytes });
        }
        let Some(bytes) = bytes_grown(bytes, texts.len(), end.len()) else {
            return Err(Refusal::Nothing);
        };
        extend_each(&mut texts, end)?;
        Ok(Texts { texts, bytes })
    }

    /// Returns each of these with each of the others appended: first the first of these with all of them.
    pub(crate) fn each_with(&self, alloc: Global, seconds: &Texts) -> Result<Texts, Refusal>
        ensures { Gives result (fitting (each_with self.now seconds.now)) }
    {
        let count = self.texts.len() * seconds.texts.len();
        let bytes = self.bytes * seconds.texts.len() + self.texts.len() * seconds.bytes;
        if count > MOST_TEXTS || bytes > MOST_BYTES {
            return Err(Refusal::Nothing);
        }
        let texts = product(alloc, &self.texts, &seconds.texts)?;
        Ok(Texts { texts, bytes })
    }

    /// Returns these, then the others.
    pub(crate) fn append(self, more: Texts) -> Result<Texts, Refusal>
        ensures { Gives result (fitting (self ++ more)) }
    {
        let count = self.texts.len() + more.texts.len();
        let bytes = self.bytes + more.bytes;
        if count > MOST_TEXTS || bytes > MOST_BYTES {
            return Err(Refusal::Nothing);
        }
        let Texts { mut texts, .. } = self;
        let mut others = more.texts;
        texts.append(&mut others)?;
        Ok(Texts { texts, bytes })
    }
}

/// Returns `bytes` plus `more` for each of `count` texts, unless that exceeds the limit.
fn bytes_grown(bytes: usize, count: usize, more: usize) -> Option<usize>
    ensures some { IfSome result (λ all. (all ≡ bytes + count * more) × (all ≤ most_bytes)) }
    ensures none { result ≡ None → most_bytes < bytes + count * more }
{
    let all = count.checked_mul(more)?.checked_add(bytes)?;
    if all > MOST_BYTES { None } else { Some(all) }
}

/// Appends the bytes to each text.
fn extend_each(texts: &mut Vec<Vec<u8>>, end: &[u8]) -> Result<(), AllocError>
    ensures { OnOk result (map (λ text. text.items) texts.new.items ≡ map (λ text. text ++ end.now)
        (map (λ text. text.items) texts.old.items)) }
{
    for text in texts.iter_mut() {
        text.extend_from_slice(end)?;
    }
    Ok(())
}

/// Returns each of the firsts with each of the seconds appended; the firsts vary slowest.
fn product(
    alloc: Global,
    firsts: &[Vec<u8>],
    seconds: &[Vec<u8>],
) -> Result<Vec<Vec<u8>>, AllocError>
    ensures { IfOk result (λ texts. map (λ text. text.items) texts.items ≡ each_with (map (λ first. first.items) firsts.now)
        (map (λ second. second.items) seconds.now)) }
{
    let mut texts = Vec::new(alloc);
    for first in firsts {
        push_with_each(alloc, &mut texts, first, seconds)?;
    }
    Ok(texts)
}

/// Pushes the first text with each of the seconds appended, after the texts.
fn push_with_each(
    alloc: Global,
    texts: &mut Vec<Vec<u8>>,
    first: &[u8],
    seconds: &[Vec<u8>],
) -> Result<(), AllocError>
    ensures { OnOk result (map (λ text. text.items) texts.new.items ≡ map (λ text. text.items) texts.old.items
        ++ map (λ second. first.now ++ second) (map (λ second. second.items) seconds.now)) }
{
    for second in seconds {
        let mut text = Vec::from_slice(alloc, first)?;
        text.extend_from_slice(second)?;
        texts.push(text)?;
    }
    Ok(())
}
