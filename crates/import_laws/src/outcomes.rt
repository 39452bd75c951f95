//! The outcome of an import, and its spans.
ghost use Rattle.std.specs.Prelude.{◌≡◌, ℕ, List, Ok, length, IsTrue};
ghost use Rattle.rule_globs.specs.Each.{Each};
ghost use Rattle.rule_reader.specs.Grammar.{ReadsAs};
ghost use Rattle.rule_profile.specs.Readable.{is_profile};
ghost use Rattle.rule_writer.specs.Canonical.{canonical};
ghost use Rattle.import_spans.specs.Spans.{Covers, IsRight};
ghost use Rattle.import_profile.specs.declared.options.ImportOptions.{ImportOptions};
ghost use Rattle.import_profile.specs.Imports.{ImportValue, Imports, Outcome};

use apparmor_text::{items_are_the_text, texts_have_one_outcome};
use import_profile::imported_paths_can_be_read;
use import_scope::texts_have_one_first_fault;
use import_spans::{blank_spans_are_blank, spans_cover_the_text};
use rule_writer::canonical_texts_are_read;

/// An import of a text has exactly one outcome.
pub fn texts_have_one_import()
    ensures some { (options : ImportOptions) (text : List ℕ) → (outcome : Outcome) × Imports options text outcome }
    ensures one { (options : ImportOptions) (text : List ℕ) (one other : Outcome) →
        Imports options text one → Imports options text other → one ≡ other }
{
    texts_have_one_outcome();
    texts_have_one_first_fault();
}

/// The spans of an import go from the text's first byte to its last, each from where the one before it ends; and one that is
/// blank is white space and comments alone.
pub fn spans_are_the_text()
    ensures whole { (options : ImportOptions) (text : List ℕ) (value : ImportValue) →
        Imports options text (Ok value) → Covers value.spans 0 (length text) }
    ensures blank { (options : ImportOptions) (text : List ℕ) (value : ImportValue) →
        Imports options text (Ok value) → Each (IsRight text) value.spans }
{
    items_are_the_text();
    spans_cover_the_text();
    blank_spans_are_blank();
}

/// An imported profile can be read: its canonical text is read as it.
pub fn imports_can_be_read()
    ensures readable { (options : ImportOptions) (text : List ℕ) (value : ImportValue) →
        Imports options text (Ok value) → IsTrue (is_profile value.profile) }
    ensures again { (options : ImportOptions) (text : List ℕ) (value : ImportValue) →
        Imports options text (Ok value) → ReadsAs (canonical value.profile) value.profile }
{
    imported_paths_can_be_read();
    canonical_texts_are_read();
}
