//! Profiles of file rules: their text, what a path's items match, and the plain judge of a name. This crate re-exports its parts:
//! verdicts of `names`, and `rule_globs`, `rule_reader`, `rule_writer` and `rule_judge`.
#![tactic(auto)]

pub use names::{RuleKind, Verdict};
pub use rule_globs::{
    ByteRange, Class, Item, RulePath, Stars, allowed_alone, byte_zero_never, end_is_live,
    live_is_left_first, live_places_go_on, one_verdict_is_right, takes_by_cuts,
};
pub use rule_judge::{
    LinkVerdict, allowed_by_themselves, allowed_perms, fine_links_widen_nothing, judge_link,
    judge_slow,
};
pub use rule_reader::{
    Profile, ReadFault, Rule, Span, one_outcome, profiles_can_be_read, read, settled_faults_stay,
    spans_are_read_again,
};
pub use rule_writer::{canonical_texts_are_read, rule_texts_are_read, write, write_rule};
