//! What an imported profile says, compared with AppArmor's own rules.
ghost use Rattle.std.specs.Prelude.{◌≡◌, ◌≢◌, ◌↔◌, ℕ, List, ◌∷◌, ◌++◌, Contains, Ok, true};
ghost use Rattle.names.specs.declared.permissions.Perms.{Perms};
ghost use Rattle.rule_globs.specs.Each.{Each};
ghost use Rattle.rule_globs.specs.Verdict.{IsVerdict};
ghost use Rattle.apparmor_text.specs.Parts.{ItemValue};
ghost use Rattle.import_spans.specs.declared.context.Choice.{Choice};
ghost use Rattle.import_spans.specs.declared.span.Span.{Span};
ghost use Rattle.import_spans.specs.CutStates.{at_start};
ghost use Rattle.import_spans.specs.Nests.{in_none, is_rule_of};
ghost use Rattle.import_spans.specs.ReadRules.{change_told, change_told_to_other, IsWithin};
ghost use Rattle.import_profile.specs.FileRules.{rules_in, subject_rule};
ghost use Rattle.apparmor_variables.specs.Variables.{Variable};
ghost use Rattle.apparmor_rules.specs.Changes.{change};
ghost use Rattle.apparmor_rules.specs.Subjects.{other_subject};
ghost use Rattle.import_profile.specs.declared.options.ImportOptions.{ImportOptions};
ghost use Rattle.import_profile.specs.Imports.{ImportValue, Imports};
ghost use Rattle.apparmor_rules.specs.declared.effect.Extent.TheVariants.{Exact, Wider, Narrower};
ghost use Rattle.apparmor_rules.specs.declared.mode.Mode.{Mode};
ghost use Rattle.apparmor_rules.specs.SecondJudge.{IsAllowedTo};
ghost use Rattle.apparmor_rules.specs.Restatement.{restated_all, shape_of};
ghost use Rattle.apparmor_rules.specs.SubjectRules.{SubjectRule, Unknown};
ghost use Rattle.names.specs.declared.verdict.Verdict.TheVariants.{Allowed};
ghost use Rattle.import_laws.specs.Imported.{variables_of, IsImported};
ghost use Rattle.import_laws.specs.RulesInside.{rules_inside};

use apparmor_rules::{
    exact_rules_say_the_same, narrower_rules_allow_no_more, wider_rules_allow_no_less,
};
use apparmor_text::{items_are_the_text, texts_have_one_outcome};
use import_scope::texts_have_one_first_fault;
use import_spans::{
    changes_are_reported_in_place, chosen_rules_are_by_braces, exact_spans_mean_exact_rules,
    exact_spans_mean_exact_rules_for_the_other,
};

/// The rules imported from a text are its chosen profile's, restated for the chosen subject.
pub fn imports_are_restated_rules()
    ensures some { (options : ImportOptions) (text : List ℕ) (value : ImportValue) → Imports options text (Ok value) →
        (rules : List SubjectRule) × (mode : Mode) × IsImported options text value rules mode }
    ensures rules { (options : ImportOptions) (text : List ℕ) (value : ImportValue) (rules : List SubjectRule) (mode : Mode) →
        Imports options text (Ok value) → IsImported options text value rules mode →
        value.profile.rules ≡ restated_all options.subject rules }
{
    texts_have_one_outcome();
    texts_have_one_first_fault();
}

/// The rules of the text itself among them are those that its braces say are directly in the chosen profile.
pub fn imported_rules_are_by_braces()
    ensures { (variables : List Variable) (choice : Choice) (items : List ItemValue) →
        rules_in variables choice.subject items (at_start choice) ≡ rules_inside variables choice.profile 0 in_none items }
{
    chosen_rules_are_by_braces();
}

/// A rule that is directly in the chosen profile, by the braces, and that isn't exact for a subject is reported so within its own
/// bytes: some span there has its change for that subject.
pub fn imported_rules_are_reported_in_place()
    ensures chosen { (options : ImportOptions) (text : List ℕ) (value : ImportValue) (rules : List SubjectRule) (mode : Mode)
        (m : IsImported options text value rules mode) (before after : List ItemValue) (item : ItemValue) →
        m.items ≡ before ++ (item ∷ after) → is_rule_of m.number before item ≡ true →
        change options.subject options.subject (shape_of (subject_rule (variables_of options m.items m.head) item.parts)) ≢ Exact →
        (span : Span) × Contains value.spans span × IsWithin before item span × (change_told span.kind
        ≡ change options.subject options.subject (shape_of (subject_rule (variables_of options m.items m.head) item.parts))) }
    ensures other { (options : ImportOptions) (text : List ℕ) (value : ImportValue) (rules : List SubjectRule) (mode : Mode)
        (m : IsImported options text value rules mode) (before after : List ItemValue) (item : ItemValue) →
        m.items ≡ before ++ (item ∷ after) → is_rule_of m.number before item ≡ true →
        change options.subject (other_subject options.subject)
        (shape_of (subject_rule (variables_of options m.items m.head) item.parts)) ≢ Exact →
        (span : Span) × Contains value.spans span × IsWithin before item span × (change_told_to_other span.kind
        ≡ change options.subject (other_subject options.subject)
        (shape_of (subject_rule (variables_of options m.items m.head) item.parts))) }
{
    items_are_the_text();
    chosen_rules_are_by_braces();
    changes_are_reported_in_place();
}

/// Where no span is reported to change anything for the chosen subject, the imported profile allows it just what the rules of the
/// text allow, in their mode; where none is reported as wider, it allows nothing that they don't; and where none is reported as
/// narrower, it allows all that they do. That holds however AppArmor reads what isn't read here.
pub fn exact_imports_say_the_same()
    ensures exact { (options : ImportOptions) (text : List ℕ) (value : ImportValue) (rules : List SubjectRule) (mode : Mode) →
        Imports options text (Ok value) → IsImported options text value rules mode →
        Each (λ span. change_told span.kind ≡ Exact) value.spans →
        (unknown : Unknown) (name : List ℕ) (ask : Perms) →
        IsVerdict value.profile.rules name ask Allowed ↔ IsAllowedTo unknown mode options.subject rules name ask }
    ensures narrower { (options : ImportOptions) (text : List ℕ) (value : ImportValue) (rules : List SubjectRule) (mode : Mode) →
        Imports options text (Ok value) → IsImported options text value rules mode →
        Each (λ span. change_told span.kind ≢ Wider) value.spans →
        (unknown : Unknown) (name : List ℕ) (ask : Perms) →
        IsVerdict value.profile.rules name ask Allowed → IsAllowedTo unknown mode options.subject rules name ask }
    ensures wider { (options : ImportOptions) (text : List ℕ) (value : ImportValue) (rules : List SubjectRule) (mode : Mode) →
        Imports options text (Ok value) → IsImported options text value rules mode →
        Each (λ span. change_told span.kind ≢ Narrower) value.spans →
        (unknown : Unknown) (name : List ℕ) (ask : Perms) →
        IsAllowedTo unknown mode options.subject rules name ask → IsVerdict value.profile.rules name ask Allowed }
{
    imports_are_restated_rules();
    items_are_the_text();
    exact_spans_mean_exact_rules();
    exact_rules_say_the_same();
    narrower_rules_allow_no_more();
    wider_rules_allow_no_less();
}

/// The same for the other subject, by what the spans are reported to change for it: where that is nothing, the imported profile allows
/// it just what the rules of the text allow; where none is wider for it, nothing that they don't; and where none is narrower for
/// it, all that they do.
pub fn exact_imports_say_the_same_to_the_other()
    ensures exact { (options : ImportOptions) (text : List ℕ) (value : ImportValue) (rules : List SubjectRule) (mode : Mode) →
        Imports options text (Ok value) → IsImported options text value rules mode →
        Each (λ span. change_told_to_other span.kind ≡ Exact) value.spans →
        (unknown : Unknown) (name : List ℕ) (ask : Perms) →
        IsVerdict value.profile.rules name ask Allowed ↔ IsAllowedTo unknown mode (other_subject options.subject) rules name ask }
    ensures narrower { (options : ImportOptions) (text : List ℕ) (value : ImportValue) (rules : List SubjectRule) (mode : Mode) →
        Imports options text (Ok value) → IsImported options text value rules mode →
        Each (λ span. change_told_to_other span.kind ≢ Wider) value.spans →
        (unknown : Unknown) (name : List ℕ) (ask : Perms) →
        IsVerdict value.profile.rules name ask Allowed → IsAllowedTo unknown mode (other_subject options.subject) rules name ask }
    ensures wider { (options : ImportOptions) (text : List ℕ) (value : ImportValue) (rules : List SubjectRule) (mode : Mode) →
        Imports options text (Ok value) → IsImported options text value rules mode →
        Each (λ span. change_told_to_other span.kind ≢ Narrower) value.spans →
        (unknown : Unknown) (name : List ℕ) (ask : Perms) →
        IsAllowedTo unknown mode (other_subject options.subject) rules name ask → IsVerdict value.profile.rules name ask Allowed }
{
    imports_are_restated_rules();
    items_are_the_text();
    exact_spans_mean_exact_rules_for_the_other();
    exact_rules_say_the_same();
    narrower_rules_allow_no_more();
    wider_rules_allow_no_less();
}
