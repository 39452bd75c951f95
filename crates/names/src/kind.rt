/// What a rule does with its permissions (apparmor.d(5), "Rule Qualifiers").
#[derive(Clone, Copy, Debug, PartialEq, Eq)]
pub enum RuleKind {
    Allow,
    Deny,
}
