//! The items of a flattened AppArmor profile text, cut into spans for one of its profiles: what of the text stays, what is
//! blank, and what an account reports, with its effect.
//!
//! The definitions to believe are those in `specs/`.
#![tactic(auto)]

mod context;
mod cut;
mod laws;
mod mode;
mod reports;
mod span;

pub use context::{Choice, RuleReading};
pub use cut::{Cut, CutText};
pub use laws::{
    blank_spans_are_blank, changes_are_reported_in_place, chosen_rules_are_by_braces,
    exact_spans_mean_exact_rules, exact_spans_mean_exact_rules_for_the_other, spans_cover_the_text,
};
pub use mode::{mode_of_flags, mode_of_head};
pub use reports::added_effect;
pub use span::{Span, SpanKind, Told};
