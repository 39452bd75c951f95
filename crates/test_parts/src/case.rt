//! What a case consists of.
ghost use Rattle.std.specs.Prelude.{◌≡◌, ◌==◌, IfOk, map};
ghost use Rattle.std.specs.List.{after_first};
ghost use Rattle.test_parts.specs.Cases.{IsRead, line_of};

use std::alloc::{AllocError, Global};

/// A case as it is written: a line with its title, a line that says what is asked, lines that begin with `+ `, each with an
/// option, and the text.
#[derive(Drop)]
pub struct Case<'a> {
    /// What is asked.
    pub view: &'a str,
    /// The options, without what they begin with.
    pub options: Vec<&'a str>,
    pub text: &'a str,
}

impl Case<'_> {
    /// Reads a case, from its title on.
    pub fn read(alloc: Global, case: &str) -> Result<Case<'_>, AllocError>
        ensures { IfOk result (λ read. IsRead case.now read.view.now (map (λ option. option.now) read.options.items) read.text.now) }
    {
        let (_title, below) = line_and_rest(case);
        let (view, below) = line_and_rest(below);
        let mut options = Vec::new(alloc);
        let mut text = below;
        for _ in 0..below.len() {
            let (line, rest) = line_and_rest(text);
            let Some(option) = line.strip_prefix("+ ") else {
                break;
            };
            options.push(option)?;
            text = rest;
        }
        Ok(Case {
            view,
            options,
            text,
        })
    }
}

/// The first line, and what follows its end.
fn line_and_rest(text: &str) -> (&str, &str)
    ensures line { result.0.now ≡ line_of text.now }
    ensures rest { result.1.now ≡ after_first (λ b. b == 10) text.now }
{
    text.split_once('\n').unwrap_or((text, ""))
}
