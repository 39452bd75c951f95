//! File rules of AppArmor. What one of a flattened profile text says, and what an account of an import reports about its parts.
//!
//! Rules with a subject, as definitions: a second judge, which knows whether the subject owns the file, what a rule's link may
//! lead to, and a profile's mode; how a rule is restated for one of the two subjects, without a qualifier or a target; and
//! what the restatement changes, for each subject. What that judge says reads no text and takes no memory.
//!
//! The definitions to believe are those in `specs/`.
#![tactic(auto)]

mod account_laws;
mod effect;
mod marks;
mod mode;
mod priority;
mod shape;
mod shown;
mod subject;
mod subject_laws;
mod what;
mod words;

pub use account_laws::{shown_texts_are_safe, statements_have_their_words};
pub use effect::{Effect, Extent};
pub use marks::{Marks, part_effect, rule_whats};
pub use mode::Mode;
pub use shape::{RuleShape, fitting_letters, restated_perms};
pub use shown::{shown_byte, shown_text};
pub use subject::{AppliesTo, Subject};
pub use subject_laws::{
    changes_are_told_in_parts, changes_have_causes, chosen_subject_gains_nothing,
    exact_rules_say_the_same, fewer_rules_say_less, fitting_letters_hold_the_same,
    narrower_rules_allow_no_more, plain_rules_are_exact, qualified_rules_change_for_one,
    wider_rules_allow_no_less,
};
pub use what::What;
pub use words::{RuleWords, content};
