//! Which word isn't understood of a line that is no command, and why.
ghost use Rattle.std.specs.Prelude.{◌≡◌, ◌≤◌, ◌++◌, IfOk, bytes_eq, codes, length, map, option_map, slice_get, string_bytes};
ghost use Rattle.script_notes.specs.Forms.{after_keep, has_quote, is_no_perms, is_no_session, misfit_of};
ghost use Rattle.script_notes.specs.Forms.{odd_last, odd_word, why, why_form, why_keep, why_quoted, why_step, why_test, why_words};
ghost use Rattle.test_script.specs.LineValues.{words_value};
ghost use Rattle.test_script.specs.TestScript.{first_word};
ghost use Rattle.trace_script.specs.Script.{words_of};

use crate::forms::{
    CHANGE_FORMS, RUN_FORMS, STEP_FORMS, TEST_FORMS, asks_perms, form_of, is_session_word,
};
use crate::line::Script;
use crate::text::joined;
use names::{NoMemory, Perms, skip, split_at};
use std::alloc::{AllocError, Global};
use test_script::quoted_words;
use trace_script::{Blank, Words, is_word};

/// What is said where no command begins with the first word.
const NO_COMMAND: &str = "no command begins with this word";

/// What is said where no change of the tree does, after `keep`.
const NO_CHANGE: &str = "no change of the tree begins with this word";

/// What isn't understood of a line.
#[derive(Debug, Drop)]
pub(crate) struct Misfit {
    /// The word, counted from 0.
    pub(crate) word: usize,
    /// What is said of it.
    pub(crate) said: String,
}

/// What isn't understood of a line that is no command.
pub(crate) fn why(alloc: Global, script: Script, line: &[u8]) -> Result<Misfit, NoMemory>
    ensures word { IfOk result (λ misfit. misfit.word ≡ (why script line.now).word) }
    ensures said { IfOk result (λ misfit. string_bytes misfit.said ≡ (why script line.now).said) }
{
    match script {
        Script::Run => why_words(alloc, NO_COMMAND, &RUN_FORMS, &words_in(alloc, line)?),
        Script::Steps => why_step(alloc, &words_in(alloc, line)?),
        Script::Test => why_test(alloc, line),
    }
}

/// What isn't understood of the words of a line of `steps`.
fn why_step(alloc: Global, words: &[&[u8]]) -> Result<Misfit, NoMemory>
    ensures word { IfOk result (λ misfit. misfit.word ≡ (why_step (map (λ word. word.now) words.now)).word) }
    ensures said { IfOk result (λ misfit. string_bytes misfit.said ≡ (why_step (map (λ word. word.now) words.now)).said) }
{
    match after_keep(words) {
        Some(kept) => why_keep(alloc, kept),
        None => why_words(alloc, NO_COMMAND, &STEP_FORMS, words),
    }
}

/// The words after `keep`, if that is the first.
fn after_keep<'s, 'w>(words: &'s [&'w [u8]]) -> Option<&'s [&'w [u8]]>
    ensures { option_map (λ kept. map (λ word. word.now) kept.now) result ≡ after_keep (map (λ word. word.now) words.now) }
{
    let [word, kept @ ..] = words else {
        return None;
    };
    if is_word("keep", word) {
        Some(kept)
    } else {
        None
    }
}

/// What isn't understood of the words after `keep`.
fn why_keep(alloc: Global, words: &[&[u8]]) -> Result<Misfit, NoMemory>
    ensures word { IfOk result (λ misfit. misfit.word ≡ (why_keep (map (λ word. word.now) words.now)).word) }
    ensures said { IfOk result (λ misfit. string_bytes misfit.said ≡ (why_keep (map (λ word. word.now) words.now)).said) }
{
    if words.is_empty() {
        return misfit_at(alloc, 0, "too few words: ", "keep CHANGE..");
    }
    let found = why_words(alloc, NO_CHANGE, &CHANGE_FORMS, words)?;
    Ok(Misfit {
        word: found.word + 1,
        said: found.said,
    })
}

/// What isn't understood of a line of `test`.
fn why_test(alloc: Global, line: &[u8]) -> Result<Misfit, NoMemory>
    ensures word { IfOk result (λ misfit. misfit.word ≡ (why_test line.now).word) }
    ensures said { IfOk result (λ misfit. string_bytes misfit.said ≡ (why_test line.now).said) }
{
    if is_expectation(line) {
        return misfit_at(alloc, 0, "too few words: ", "expect ANSWER..");
    }
    let Ok(words) = quoted_words(alloc, line) else {
        return Err(NoMemory);
    };
    let found = why_quoted(alloc, &words)?;
    if has_quote(line) {
        return Ok(Misfit {
            word: 0,
            said: found.said,
        });
    }
    Ok(found)
}

/// Whether a line begins with `expect`, without quotes.
fn is_expectation(line: &[u8]) -> bool
    ensures { result ≡ bytes_eq (codes "expect") (first_word line.now) }
{
    let (word, _) = split_at::<Blank>(skip::<Blank>(line));
    is_word("expect", word)
}

/// Whether a line has a quote.
fn has_quote(line: &[u8]) -> bool
    ensures { result ≡ has_quote line.now }
{
    line.iter().any(|byte| *byte == b'"')
}

/// What isn't understood of the words of a line of `test`.
fn why_quoted(alloc: Global, words: &Option<Vec<Vec<u8>>>) -> Result<Misfit, NoMemory>
    ensures word { IfOk result (λ misfit. misfit.word ≡ (why_quoted (words_value words.now)).word) }
    ensures said { IfOk result (λ misfit. string_bytes misfit.said ≡ (why_quoted (words_value words.now)).said) }
{
    match words {
        Some(words) => match slices(alloc, words) {
            Ok(slices) => why_words(alloc, NO_COMMAND, &TEST_FORMS, &slices),
            Err(_) => Err(NoMemory),
        },
        None => misfit_at(
            alloc,
            0,
            "a quote isn't closed, or what follows it, or a backslash in it, isn't understood",
            "",
        ),
    }
}

/// The words as slices.
fn slices<'w>(alloc: Global, words: &'w [Vec<u8>]) -> Result<Vec<&'w [u8]>, AllocError>
    ensures { IfOk result (λ slices. map (λ slice. slice.now) slices.items ≡ map (λ word. word.items) words.now) }
{
    let mut slices = Vec::new(alloc);
    for word in words {
        slices.push(word.as_slice())?;
    }
    Ok(slices)
}

/// What isn't understood of these words, with what is said where no form begins with the first.
fn why_words(
    alloc: Global,
    unknown: &str,
    forms: &[&str],
    words: &[&[u8]],
) -> Result<Misfit, NoMemory>
    ensures word { IfOk result (λ misfit. misfit.word
        ≡ (why_words unknown.now (map (λ form. form.now) forms.now) (map (λ word. word.now) words.now)).word) }
    ensures said { IfOk result (λ misfit. string_bytes misfit.said
        ≡ (why_words unknown.now (map (λ form. form.now) forms.now) (map (λ word. word.now) words.now)).said) }
    ensures within { IfOk result (λ misfit. misfit.word ≤ length words.now) }
{
    match words {
        [] => misfit_at(alloc, 0, "", ""),
        [word, ..] => why_form(alloc, unknown, form_of(forms, word), words),
    }
}

/// What isn't understood of words whose first is that of this form, if of any.
fn why_form(
    alloc: Global,
    unknown: &str,
    form: Option<&str>,
    words: &[&[u8]],
) -> Result<Misfit, NoMemory>
    ensures word { IfOk result (λ misfit. misfit.word
        ≡ (why_form unknown.now (option_map (λ form. form.now) form.entry) (map (λ word. word.now) words.now)).word) }
    ensures said { IfOk result (λ misfit. string_bytes misfit.said
        ≡ (why_form unknown.now (option_map (λ form. form.now) form.entry) (map (λ word. word.now) words.now)).said) }
    ensures within { IfOk result (λ misfit. misfit.word ≤ length words.now) }
{
    match form {
        None => misfit_at(alloc, 0, unknown, ""),
        Some(form) => misfit_of(alloc, form, &words_in(alloc, form.as_bytes())?, words),
    }
}

/// Why words whose first is that of a form aren't of that form, by its words.
fn misfit_of(
    alloc: Global,
    form: &str,
    of_form: &[&[u8]],
    words: &[&[u8]],
) -> Result<Misfit, NoMemory>
    ensures word { IfOk result (λ misfit. misfit.word
        ≡ (misfit_of form.now (map (λ word. word.now) of_form.now) (map (λ word. word.now) words.now)).word) }
    ensures said { IfOk result (λ misfit. string_bytes misfit.said
        ≡ (misfit_of form.now (map (λ word. word.now) of_form.now) (map (λ word. word.now) words.now)).said) }
    ensures within { IfOk result (λ misfit. misfit.word ≤ length words.now) }
{
    if words.len() < of_form.len() {
        misfit_at(alloc, 0, "too few words: ", form)
    } else if of_form.len() < words.len() {
        misfit_at(alloc, of_form.len(), "too many words: ", form)
    } else {
        odd_word(alloc, form, of_form, words)
    }
}

/// Which of as many words as those of a form isn't what it should be.
fn odd_word(
    alloc: Global,
    form: &str,
    of_form: &[&[u8]],
    words: &[&[u8]],
) -> Result<Misfit, NoMemory>
    ensures word { IfOk result (λ misfit. misfit.word
        ≡ (odd_word form.now (map (λ word. word.now) of_form.now) (map (λ word. word.now) words.now)).word) }
    ensures said { IfOk result (λ misfit. string_bytes misfit.said
        ≡ (odd_word form.now (map (λ word. word.now) of_form.now) (map (λ word. word.now) words.now)).said) }
    ensures within { IfOk result (λ misfit. misfit.word ≤ length words.now) }
{
    if is_session_word(word_at(of_form, 1)) && is_no_session(word_at(words, 1)) {
        misfit_at(
            alloc,
            1,
            "the second word is no session, which is a digit from 1 to 9: ",
            form,
        )
    } else {
        odd_last(alloc, form, words)
    }
}

/// What the last word isn't, where the others are what they should be.
fn odd_last(alloc: Global, form: &str, words: &[&[u8]]) -> Result<Misfit, NoMemory>
    ensures word { IfOk result (λ misfit. misfit.word ≡ (odd_last form.now (map (λ word. word.now) words.now)).word) }
    ensures said { IfOk result (λ misfit. string_bytes misfit.said ≡ (odd_last form.now (map (λ word. word.now) words.now)).said) }
    ensures within { IfOk result (λ misfit. misfit.word ≤ length words.now) }
{
    let last = words.len().saturating_sub(1);
    if asks_perms(form) && is_no_perms(word_at(words, last)) {
        misfit_at(alloc, last, "the last word is no permissions: ", form)
    } else {
        misfit_at(alloc, last, "the last word is no number below 2^64: ", form)
    }
}

/// The word of this number, from 0.
fn word_at<'w>(words: &[&'w [u8]], place: usize) -> Option<&'w [u8]>
    ensures { option_map (λ word. word.now) result ≡ slice_get (map (λ word. word.now) words.now) place }
{
    words.get(place).copied()
}

/// Of a word: two texts as one.
fn misfit_at(alloc: Global, word: usize, front: &str, rest: &str) -> Result<Misfit, NoMemory>
    ensures word { IfOk result (λ misfit. misfit.word ≡ word) }
    ensures said { IfOk result (λ misfit. string_bytes misfit.said ≡ front.now ++ rest.now) }
{
    let said = joined(alloc, front, rest)?;
    Ok(Misfit { word, said })
}

/// Whether a word is no session.
fn is_no_session(word: Option<&[u8]>) -> bool
    ensures { result ≡ is_no_session (option_map (λ word. word.now) word.entry) }
{
    match word {
        Some([digit]) => *digit < b'1' || b'9' < *digit,
        Some(_) => true,
        None => false,
    }
}

/// Whether a word is no permissions.
fn is_no_perms(word: Option<&[u8]>) -> bool
    ensures { result ≡ is_no_perms (option_map (λ word. word.now) word.entry) }
{
    match word {
        Some(word) => Perms::from_letters(word).is_none(),
        None => false,
    }
}

/// The words of a line.
fn words_in<'l>(alloc: Global, line: &'l [u8]) -> Result<Vec<&'l [u8]>, NoMemory>
    ensures { IfOk result (λ words. map (λ word. word.now) words.items ≡ words_of line.now) }
{
    let mut words = Vec::new(alloc);
    let mut left = Words::of(line);
    while let Some(word) = left.next() {
        if words.push(word).is_err() {
            return Err(NoMemory);
        }
    }
    Ok(words)
}
