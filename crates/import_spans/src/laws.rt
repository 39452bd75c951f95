//! Laws of the spans of a text. The functions do nothing: each stands for its contract.
ghost use Rattle.std.specs.Prelude.{◌≡◌, ◌≢◌, ◌++◌, ◌∷◌, List, length, Contains};
ghost use Rattle.rule_globs.specs.Each.{Each};
ghost use Rattle.apparmor_text.specs.SoundItems.{IsItem};
ghost use Rattle.apparmor_text.specs.Parts.{ItemValue, bytes_of_items};
ghost use Rattle.apparmor_rules.specs.Changes.{change};
ghost use Rattle.import_spans.specs.declared.context.Choice.{Choice};
ghost use Rattle.import_spans.specs.declared.context.RuleReading.{RuleReading};
ghost use Rattle.import_spans.specs.CutStates.{at_start};
ghost use Rattle.import_spans.specs.Cuts.{cut_items, cut_of, is_chosen_rule};
ghost use Rattle.import_spans.specs.Nests.{is_rule_of};
ghost use Rattle.import_spans.specs.declared.span.Span.{Span};
ghost use Rattle.apparmor_rules.specs.Subjects.{other_subject};
ghost use Rattle.import_spans.specs.ReadRules.{change_told, change_told_to_other, IsReadRule, IsWithin};
ghost use Rattle.import_spans.specs.Spans.{Covers, IsRight};
ghost use Rattle.apparmor_rules.specs.declared.effect.Extent.TheVariants.{Exact, Wider, Narrower};

/// The spans of a text, in order, go from its first byte to its last: each begins where the one before it ends, and none is
/// empty.
pub fn spans_cover_the_text()
    ensures { (reading : ItemValue → RuleReading) (choice : Choice) (items : List ItemValue) →
        Covers (cut_of reading choice items).spans 0 (length (bytes_of_items items)) }
{}

/// A span of kind `Blank` is white space and comments alone.
pub fn blank_spans_are_blank()
    ensures { (reading : ItemValue → RuleReading) (choice : Choice) (items : List ItemValue) → Each IsItem items →
        Each (IsRight (bytes_of_items items)) (cut_of reading choice items).spans }
{}

/// A rule that isn't exact for a subject is reported so within its own bytes: some span there has its change for that subject.
pub fn changes_are_reported_in_place()
    ensures chosen { (reading : ItemValue → RuleReading) (choice : Choice) (before after : List ItemValue) (item : ItemValue) →
        IsReadRule reading choice before item → change choice.subject choice.subject (reading item).shape ≢ Exact →
        (span : Span) × Contains (cut_of reading choice (before ++ (item ∷ after))).spans span × IsWithin before item span
        × (change_told span.kind ≡ change choice.subject choice.subject (reading item).shape) }
    ensures other { (reading : ItemValue → RuleReading) (choice : Choice) (before after : List ItemValue) (item : ItemValue) →
        IsReadRule reading choice before item → change choice.subject (other_subject choice.subject) (reading item).shape ≢ Exact →
        (span : Span) × Contains (cut_of reading choice (before ++ (item ∷ after))).spans span × IsWithin before item span
        × (change_told_to_other span.kind ≡ change choice.subject (other_subject choice.subject) (reading item).shape) }
{}

/// The rules of the chosen profile are those that the braces say are directly in it, however they are read.
pub fn chosen_rules_are_by_braces()
    ensures { (reading : ItemValue → RuleReading) (choice : Choice) (before : List ItemValue) (item : ItemValue) →
        is_chosen_rule item (cut_items reading before (at_start choice)) ≡ is_rule_of choice.profile before item }
{}

/// Where all spans of a text are reported as exact for the other subject, each rule of the chosen profile is exact for it, and so on
/// as for the chosen subject.
pub fn exact_spans_mean_exact_rules_for_the_other()
    ensures exact { (reading : ItemValue → RuleReading) (choice : Choice) (before after : List ItemValue) (item : ItemValue) →
        IsReadRule reading choice before item →
        Each (λ span. change_told_to_other span.kind ≡ Exact) (cut_of reading choice (before ++ (item ∷ after))).spans →
        change choice.subject (other_subject choice.subject) (reading item).shape ≡ Exact }
    ensures not_wider { (reading : ItemValue → RuleReading) (choice : Choice) (before after : List ItemValue) (item : ItemValue) →
        IsReadRule reading choice before item →
        Each (λ span. change_told_to_other span.kind ≢ Wider) (cut_of reading choice (before ++ (item ∷ after))).spans →
        change choice.subject (other_subject choice.subject) (reading item).shape ≢ Wider }
    ensures not_narrower { (reading : ItemValue → RuleReading) (choice : Choice) (before after : List ItemValue) (item : ItemValue) →
        IsReadRule reading choice before item →
        Each (λ span. change_told_to_other span.kind ≢ Narrower) (cut_of reading choice (before ++ (item ∷ after))).spans →
        change choice.subject (other_subject choice.subject) (reading item).shape ≢ Narrower }
{}

/// Where all spans of a text are reported as exact for the chosen subject, each rule of the chosen profile is exact for it; where
/// none is reported as wider for it, no rule is, and where none is reported as narrower, no rule is.
pub fn exact_spans_mean_exact_rules()
    ensures exact { (reading : ItemValue → RuleReading) (choice : Choice) (before after : List ItemValue) (item : ItemValue) →
        IsReadRule reading choice before item →
        Each (λ span. change_told span.kind ≡ Exact) (cut_of reading choice (before ++ (item ∷ after))).spans →
        change choice.subject choice.subject (reading item).shape ≡ Exact }
    ensures not_wider { (reading : ItemValue → RuleReading) (choice : Choice) (before after : List ItemValue) (item : ItemValue) →
        IsReadRule reading choice before item →
        Each (λ span. change_told span.kind ≢ Wider) (cut_of reading choice (before ++ (item ∷ after))).spans →
        change choice.subject choice.subject (reading item).shape ≢ Wider }
    ensures not_narrower { (reading : ItemValue → RuleReading) (choice : Choice) (before after : List ItemValue) (item : ItemValue) →
        IsReadRule reading choice before item →
        Each (λ span. change_told span.kind ≢ Narrower) (cut_of reading choice (before ++ (item ∷ after))).spans →
        change choice.subject choice.subject (reading item).shape ≢ Narrower }
{}
