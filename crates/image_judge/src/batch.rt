//! Many names judged in one call.
ghost use Rattle.std.specs.Prelude.{◌≡◌, ◌+◌, ◌-◌, ◌<◌, ◌≤◌, ℕ, IfSome, Some, length, slice_get};
ghost use Rattle.std.specs.Option.{option_copied};
ghost use Rattle.table_batches.specs.Batches.{AreAfter, AreOffsets};
ghost use Rattle.image_judge.specs.Answers.{IsNoneOrLoaded, no_answer};
ghost use Rattle.image_judge.specs.declared.answer.Answer.{Answer};
ghost use Rattle.image_judge.specs.Batches.{AreAnswersOf, name_at};
ghost use Rattle.image_judge.specs.inner.Parts.{AreToldTo, ArePartsNames, IsToldAt};

use crate::answer::{Answer, answer_on, no_answer};
use crate::judgment::judge_by;
use crate::permissions::set_of_number;
use names::{Perms, grounds_of};
use table_batches::{are_offsets, run_names_by_image};
use table_verifier::{LookUps, State, Steps, VerifiedImage};

/// The most names that are run side by side before their answers are written: their states are on the stack.
const MOST: usize = 128;

/// Fewer names than this are run one by one.
const FEWEST: usize = 8;

/// What an image that was accepted says about a name, for each answer. The names are in one text, each from an offset to the next
/// one. If there are no two such offsets, or they descend or leave the text, nothing is judged.
pub fn judge_all(image: &[u8], names: &[u8], offsets: &[usize], asked: u32, answers: &mut [Answer])
    requires { IsNoneOrLoaded image.now }
    ensures { AreAnswersOf image.now asked names.now offsets.now answers.old answers.new }
{
    if image.is_empty() {
        return judge_none(answers);
    }
    match set_of_number(asked) {
        Some(ask) => judge_names(
            &VerifiedImage::accepted(image),
            names,
            offsets,
            ask,
            answers,
        ),
        None => judge_none(answers),
    }
}

// Nothing is judged.
fn judge_none(answers: &mut [Answer])
    ensures long { length answers.new ≡ length answers.old }
    ensures none { (i : ℕ) (a : Answer) → slice_get answers.new i ≡ Some a → a ≡ no_answer }
{
    for place in 0..answers.len() {
        answers[place] = no_answer();
    }
}

// What the image says about each name, in parts of at most `MOST` names.
fn judge_names(
    image: &VerifiedImage<'_>,
    names: &[u8],
    offsets: &[usize],
    ask: Perms,
    answers: &mut [Answer],
)
    ensures long { length answers.new ≡ length answers.old }
    ensures told { AreToldTo image.now ask names.now offsets.now (length answers.old) answers.new }
{
    let count = answers.len();
    let mut first = 0;
    while first < count {
        let last = count.min(first.saturating_add(MOST));
        match offsets_of(names, offsets, first, last) {
            Some(part) => judge_part(image, names, offsets, part, ask, first, answers),
            None => judge_each(image, names, offsets, ask, first, last, answers),
        }
        first = last;
    }
}

// The offsets of some of the names, from the number `first` up to `last`, if they are enough to be run side by side, and their
// offsets ascend and stay in the text.
fn offsets_of<'a>(
    names: &[u8],
    offsets: &'a [usize],
    first: usize,
    last: usize,
) -> Option<&'a [usize]>
    requires { first ≤ last }
    ensures offsets { IfSome result (λ part. AreOffsets names.now part.now (last - first)) }
    ensures names { IfSome result (λ part. ArePartsNames names.now offsets.now part.now first (last - first)) }
{
    let count = last - first;
    let part = offsets.get(first..last.checked_add(1)?)?;
    if count >= FEWEST && are_offsets(names, part, count) {
        Some(part)
    } else {
        None
    }
}

// Judges some of the names side by side: those of a part of the offsets, which begins with that of the name `first`.
fn judge_part(
    image: &VerifiedImage<'_>,
    names: &[u8],
    offsets: &[usize],
    part: &[usize],
    ask: Perms,
    first: usize,
    answers: &mut [Answer],
)
    requires some { 0 < length part.now }
    requires few { length part.now ≤ 129 }
    requires offsets { AreOffsets names.now part.now (length part.now - 1) }
    requires names { ArePartsNames names.now offsets.now part.now first (length part.now - 1) }
    requires room { first + (length part.now - 1) ≤ length answers.old }
    requires told { AreToldTo image.now ask names.now offsets.now first answers.old }
    ensures long { length answers.new ≡ length answers.old }
    ensures told { AreToldTo image.now ask names.now offsets.now (first + (length part.now - 1)) answers.new }
{
    let count = part.len() - 1;
    let mut all: [State; MOST] = [0; MOST];
    let states = &mut all[..count];
    let mut steps = Steps::new();
    let mut lookups = LookUps::new();
    // A bound of depths has few bits, so the look-ups of names can be counted.
    let _bound = image.depth_bound();
    run_names_by_image(image, names, part, states, &mut steps, &mut lookups);
    answer_by(image, names, offsets, part, states, ask, first, answers);
}

// Writes what the states of some names say. The text of the names and all offsets are for the contract alone.
fn answer_by(
    image: &VerifiedImage<'_>,
    names: &[u8],
    offsets: &[usize],
    part: &[usize],
    states: &[State],
    ask: Perms,
    first: usize,
    answers: &mut [Answer],
)
    requires offsets { AreOffsets names.now part.now (length states.now) }
    requires names { ArePartsNames names.now offsets.now part.now first (length states.now) }
    requires after { AreAfter image.now names.now part.now states.now }
    requires room { first + length states.now ≤ length answers.old }
    requires told { AreToldTo image.now ask names.now offsets.now first answers.old }
    ensures long { length answers.new ≡ length answers.old }
    ensures told { AreToldTo image.now ask names.now offsets.now (first + length states.now) answers.new }
{
    let _names = names;
    let _offsets = offsets;
    for i in 0..states.len() {
        let record = image.record_of(states[i]);
        let steps = part[i + 1] - part[i];
        answers[first + i] = answer_on(grounds_of(&record, ask), steps as u64);
    }
}

// Judges some of the names one by one: from the number `first` up to `last`.
fn judge_each(
    image: &VerifiedImage<'_>,
    names: &[u8],
    offsets: &[usize],
    ask: Perms,
    first: usize,
    last: usize,
    answers: &mut [Answer],
)
    requires ascend { first ≤ last }
    requires room { last ≤ length answers.old }
    requires told { AreToldTo image.now ask names.now offsets.now first answers.old }
    ensures long { length answers.new ≡ length answers.old }
    ensures told { AreToldTo image.now ask names.now offsets.now last answers.new }
{
    for place in first..last {
        judge_at(image, names, offsets, ask, place, &mut answers[place]);
    }
}

// The answer for the name from an offset to the next one.
fn judge_at(
    image: &VerifiedImage<'_>,
    names: &[u8],
    offsets: &[usize],
    ask: Perms,
    place: usize,
    answer: &mut Answer,
)
    ensures { IsToldAt image.now ask (name_at names.now offsets.now place) answer.new }
{
    match name_at(names, offsets, place) {
        Some(name) => judge_by(image, name, ask, answer),
        None => *answer = no_answer(),
    }
}

// The name from an offset to the next one.
fn name_at<'a>(names: &'a [u8], offsets: &[usize], place: usize) -> Option<&'a [u8]>
    ensures { option_copied result ≡ name_at names.now offsets.now place }
{
    let begin = *offsets.get(place)?;
    let end = *offsets.get(place.checked_add(1)?)?;
    names.get(begin..end)
}
