//! The items of a text, cut into spans one by one.
ghost use Rattle.std.specs.Prelude.{◌≡◌, ◌≤◌, ◌+◌, ◌^◌, ◌++◌, ◌∷◌, [], IfOk, OnErr, true, false};
ghost use Rattle.import_spans.specs.CutStates.{at_start, pass, put, enter, opened, closed, with_hat, with_change, passed, put_item};
ghost use Rattle.import_spans.specs.CutStates.{put_parts};
ghost use Rattle.import_spans.specs.Cuts.{run_effect, run_kind, behind_run, start_run, chosen_head, outer_head, run_head, child_head};
ghost use Rattle.import_spans.specs.Cuts.{run_close, chosen_close, statement_item, outer_item, run_item, chosen_item, plain_item};
ghost use Rattle.import_spans.specs.Cuts.{is_chosen, is_chosen_rule, cut_item, finished};
ghost use Rattle.import_spans.specs.declared.context.RuleReading.{RuleReading};

use crate::context::{Choice, RuleReading};
use crate::reports::{
    PartTelling, added_effect, changes_profile, is_hat_head, no_effect, statement_effect,
    statement_whats, told_by,
};
use crate::span::{Span, SpanKind, Told};
use apparmor_rules::{Effect, Subject, What, rule_whats};
use apparmor_text::{Item, ItemKind, Part};
use names::NoMemory;
use std::alloc::Global;
use std::marker::Model;

/// Some items, one after another, that are one span.
#[derive(Clone, Copy)]
pub(crate) struct Run {
    /// What it is reported as.
    what: What,
    /// How many profiles are open where it ends.
    floor: usize,
}

/// Where in a text an item is.
#[derive(Clone, Copy)]
pub(crate) enum Phase {
    /// In no profile.
    Outer,
    /// In a run.
    Skipping(Run),
    /// Directly in the chosen profile.
    Chosen,
}

/// The items of a text so far, cut into spans. After an error it isn't known how far.
#[derive(Drop)]
pub struct Cut {
    alloc: Global,
    choice: Choice,
    /// How many profiles are open.
    depth: usize,
    /// How many began.
    heads: usize,
    /// How many bytes there were.
    at: usize,
    /// How many of them are in spans: all except those of a run.
    from: usize,
    phase: Phase,
    spans: Vec<Span>,
    changes_profile: Option<usize>,
    has_hat: Option<usize>,
}

impl Model for Cut {
    ghost use Rattle.import_spans.specs.CutStates.{CutState};

    ghost Value = { CutState };

    ghost view = { λ c. record {
      choice = c.choice;
      depth = c.depth;
      heads = c.heads;
      at = c.at;
      from = c.from;
      phase = c.phase;
      spans = c.spans.items;
      changes_profile = c.changes_profile;
      has_hat = c.has_hat;
    } };
}

/// The spans of a text, from its first byte to its last, and where the parts that add rules to the chosen profile begin.
#[derive(Debug, Drop)]
pub struct CutText {
    pub spans: Vec<Span>,
    /// How many bytes are before its first statement `change_profile`.
    pub changes_profile: Option<usize>,
    /// How many bytes are before its first hat or child, or before its own head if it is a hat.
    pub has_hat: Option<usize>,
}

/// Adds two counts. An overflow is `NoMemory`: there is no memory for more than can be counted.
fn sum(one: usize, other: usize) -> Result<usize, NoMemory>
    ensures ok { IfOk result (λ sum. sum ≡ one + other) }
    ensures err { OnErr result (2 ^ 64 ≤ one + other) }
{
    one.checked_add(other).ok_or(NoMemory)
}

/// Appends a span.
fn add(spans: &mut Vec<Span>, span: Span) -> Result<(), NoMemory>
    ensures { IfOk result (λ _. spans.new.items ≡ spans.old.items ++ (span ∷ [])) }
{
    match spans.push(span) {
        Ok(()) => Ok(()),
        Err(_) => Err(NoMemory),
    }
}

/// The effect of a run that is reported as `what`. It is left out, except for the rules that it adds.
fn run_effect(chosen: Subject, what: What) -> Effect
    ensures { result ≡ run_effect chosen what }
{
    match what {
        What::Hat | What::Child => added_effect(chosen),
        _ => no_effect(chosen),
    }
}

/// The phase after a run with this floor.
fn behind_run(floor: usize) -> Phase
    ensures { result ≡ behind_run floor }
{
    if floor == 0 {
        Phase::Outer
    } else {
        Phase::Chosen
    }
}

impl Cut {
    /// The state before a text.
    pub fn new(alloc: Global, choice: Choice) -> Cut
        ensures { result ≡ at_start choice }
    {
        Cut {
            alloc,
            choice,
            depth: 0,
            heads: 0,
            at: 0,
            from: 0,
            phase: Phase::Outer,
            spans: Vec::new(alloc),
            changes_profile: None,
            has_hat: None,
        }
    }

    /// Whether the next item is directly in the chosen profile.
    pub fn is_in_chosen(&self) -> bool
        ensures { result ≡ is_chosen self.now.phase }
    {
        matches!(self.phase, Phase::Chosen)
    }

    /// How many bytes there were so far.
    pub fn place(&self) -> usize
        ensures { result ≡ self.now.at }
    {
        self.at
    }

    // ---- steps

    fn pass(&mut self, count: usize) -> Result<(), NoMemory>
        ensures { IfOk result (λ _. self.new ≡ pass count self.old) }
    {
        self.at = sum(self.at, count)?;
        Ok(())
    }

    /// Makes a span of the bytes that are in none yet, if there are any.
    fn put(&mut self, kind: SpanKind) -> Result<(), NoMemory>
        ensures { IfOk result (λ _. self.new ≡ put kind self.old) }
    {
        if self.from == self.at {
            return Ok(());
        }
        let span = Span {
            start: self.from,
            end: self.at,
            kind,
        };
        add(&mut self.spans, span)?;
        self.from = self.at;
        Ok(())
    }

    fn enter(&mut self, phase: Phase)
        ensures { self.new ≡ enter phase self.old }
    {
        self.phase = phase;
    }

    fn open(&mut self) -> Result<(), NoMemory>
        ensures { IfOk result (λ _. self.new ≡ opened self.old) }
    {
        self.depth = sum(self.depth, 1)?;
        self.heads = sum(self.heads, 1)?;
        Ok(())
    }

    fn close(&mut self)
        ensures { self.new ≡ closed self.old }
    {
        self.depth = self.depth.saturating_sub(1);
    }

    /// Marks the place as the start of a hat or a child, if it is the first.
    fn mark_hat(&mut self)
        ensures { self.new ≡ with_hat self.old }
    {
        self.has_hat = self.has_hat.or(Some(self.at));
    }

    /// Marks the place as the start of a statement `change_profile`, if it is the first.
    fn mark_change(&mut self)
        ensures { self.new ≡ with_change self.old }
    {
        self.changes_profile = self.changes_profile.or(Some(self.at));
    }

    fn pass_item(&mut self, item: &Item<'_>) -> Result<(), NoMemory>
        ensures { IfOk result (λ _. self.new ≡ passed item.now self.old) }
    {
        self.pass(item.text().len())
    }

    /// Makes the item one span.
    fn put_item(&mut self, kind: SpanKind, item: &Item<'_>) -> Result<(), NoMemory>
        ensures { IfOk result (λ _. self.new ≡ put_item kind item.now self.old) }
    {
        self.pass_item(item)?;
        self.put(kind)
    }

    /// Makes each part a span.
    fn put_parts(&mut self, telling: PartTelling, parts: &[Part<'_>]) -> Result<(), NoMemory>
        ensures { IfOk result (λ _. self.new ≡ put_parts telling parts.now self.old) }
    {
        for part in parts {
            self.pass(part.bytes().len())?;
            let kind = telling.kind(self.alloc, self.choice.subject, part)?;
            self.put(kind)?;
        }
        Ok(())
    }

    // ---- heads

    #[tactic(auto, unfolding(crate::specs::Cuts::start_run))]
    fn start_run(&mut self, what: What, item: &Item<'_>) -> Result<(), NoMemory>
        ensures { IfOk result (λ _. self.new ≡ start_run what item.now self.old) }
    {
        let floor = self.depth;
        self.enter(Phase::Skipping(Run { what, floor }));
        self.open()?;
        self.pass_item(item)
    }

    /// Makes a span of the bytes of a run, if there are any.
    fn end_run(&mut self, what: What) -> Result<(), NoMemory>
        ensures { IfOk result (λ _. self.new ≡ put (run_kind self.old.choice.subject what) self.old) }
    {
        let effect = run_effect(self.choice.subject, what);
        let kind = told_by(self.alloc, what, effect)?;
        self.put(kind)
    }

    #[tactic(auto, unfolding(crate::specs::Cuts::chosen_head))]
    fn chosen_head(&mut self, item: &Item<'_>) -> Result<(), NoMemory>
        ensures { IfOk result (λ _. self.new ≡ chosen_head item.now self.old) }
    {
        if is_hat_head(item.parts()) {
            self.mark_hat();
        }
        self.enter(Phase::Chosen);
        self.open()?;
        self.put_parts(PartTelling::OfHead, item.parts())
    }

    #[tactic(auto, unfolding(crate::specs::Cuts::outer_head))]
    fn outer_head(&mut self, item: &Item<'_>) -> Result<(), NoMemory>
        ensures { IfOk result (λ _. self.new ≡ outer_head item.now self.old) }
    {
        if self.heads == self.choice.profile {
            self.chosen_head(item)
        } else if self.heads == self.choice.outermost {
            self.start_run(What::Parent, item)
        } else {
            self.start_run(What::Profile, item)
        }
    }

    #[tactic(auto, unfolding(crate::specs::Cuts::run_head))]
    fn run_head(&mut self, what: What, item: &Item<'_>) -> Result<(), NoMemory>
        ensures { IfOk result (λ _. self.new ≡ run_head what item.now self.old) }
    {
        if self.heads == self.choice.profile {
            self.end_run(what)?;
            self.chosen_head(item)
        } else {
            self.open()?;
            self.pass_item(item)
        }
    }

    #[tactic(auto, unfolding(crate::specs::Cuts::child_head))]
    fn child_head(&mut self, what: What, item: &Item<'_>) -> Result<(), NoMemory>
        ensures { IfOk result (λ _. self.new ≡ child_head what item.now self.old) }
    {
        self.mark_hat();
        self.start_run(what, item)
    }

    // ---- ends of profiles

    #[tactic(auto, unfolding(crate::specs::Cuts::run_close))]
    fn run_close(&mut self, run: Run, item: &Item<'_>) -> Result<(), NoMemory>
        ensures { IfOk result (λ _. self.new ≡ run_close run item.now self.old) }
    {
        self.close();
        self.pass_item(item)?;
        if self.depth == run.floor {
            self.end_run(run.what)?;
            self.enter(behind_run(run.floor));
        }
        Ok(())
    }

    #[tactic(auto, unfolding(crate::specs::Cuts::chosen_close))]
    fn chosen_close(&mut self, item: &Item<'_>) -> Result<(), NoMemory>
        ensures { IfOk result (λ _. self.new ≡ chosen_close item.now self.old) }
    {
        self.close();
        self.put_item(SpanKind::Kept, item)?;
        if self.depth == 0 {
            self.enter(Phase::Outer);
        } else {
            let what = What::Parent;
            self.enter(Phase::Skipping(Run { what, floor: 0 }));
        }
        Ok(())
    }

    // ---- items

    #[tactic(auto, unfolding(crate::specs::Cuts::statement_item))]
    fn statement_item(&mut self, item: &Item<'_>) -> Result<(), NoMemory>
        ensures { IfOk result (λ _. self.new ≡ statement_item item.now self.old) }
    {
        let whats = statement_whats(self.alloc, item.parts())?;
        let effect = statement_effect(self.choice.subject, &whats);
        if changes_profile(&whats) {
            self.mark_change();
        }
        self.put_item(SpanKind::Told(Told::new(whats, effect)), item)
    }

    #[tactic(auto, unfolding(crate::specs::Cuts::outer_item))]
    fn outer_item(&mut self, item: &Item<'_>) -> Result<(), NoMemory>
        ensures { IfOk result (λ _. self.new ≡ outer_item item.now.kind item.now self.old) }
    {
        match item.kind() {
            ItemKind::Blank => self.put_parts(PartTelling::Plain, item.parts()),
            ItemKind::Statement => self.statement_item(item),
            ItemKind::Profile | ItemKind::Hat => self.outer_head(item),
            _ => self.put_item(SpanKind::Kept, item),
        }
    }

    #[tactic(auto, unfolding(crate::specs::Cuts::run_item))]
    fn run_item(&mut self, run: Run, item: &Item<'_>) -> Result<(), NoMemory>
        ensures { IfOk result (λ _. self.new ≡ run_item run item.now.kind item.now self.old) }
    {
        match item.kind() {
            ItemKind::Profile | ItemKind::Hat => self.run_head(run.what, item),
            ItemKind::Close => self.run_close(run, item),
            _ => self.pass_item(item),
        }
    }

    #[tactic(auto, unfolding(crate::specs::Cuts::chosen_item))]
    fn chosen_item(&mut self, item: &Item<'_>) -> Result<(), NoMemory>
        ensures { IfOk result (λ _. self.new ≡ chosen_item item.now.kind item.now self.old) }
    {
        match item.kind() {
            ItemKind::Blank => self.put_parts(PartTelling::Plain, item.parts()),
            ItemKind::Statement => self.statement_item(item),
            ItemKind::Profile => self.child_head(What::Child, item),
            ItemKind::Hat => self.child_head(What::Hat, item),
            ItemKind::Close => self.chosen_close(item),
            _ => self.put_item(SpanKind::Kept, item),
        }
    }

    #[tactic(auto, unfolding(crate::specs::Cuts::plain_item))]
    fn plain_item(&mut self, item: &Item<'_>) -> Result<(), NoMemory>
        ensures { IfOk result (λ _. self.new ≡ plain_item self.old.phase item.now self.old) }
    {
        match self.phase {
            Phase::Outer => self.outer_item(item),
            Phase::Skipping(run) => self.run_item(run, item),
            Phase::Chosen => self.chosen_item(item),
        }
    }

    /// Cuts the next item, which isn't a rule of the chosen profile.
    pub fn item(&mut self, item: &Item<'_>) -> Result<(), NoMemory>
        requires { is_chosen_rule item.now self.old ≡ false }
        ensures { IfOk result (λ _. (reading : RuleReading) → self.new ≡ cut_item reading item.now self.old) }
    {
        self.plain_item(item)
    }

    /// Cuts the next item, a rule of the chosen profile, by how it was read.
    #[tactic(auto, unfolding(crate::specs::Cuts::chosen_rule))]
    pub fn rule(&mut self, item: &Item<'_>, reading: RuleReading) -> Result<(), NoMemory>
        requires { is_chosen_rule item.now self.old ≡ true }
        ensures { IfOk result (λ _. self.new ≡ cut_item reading item.now self.old) }
    {
        let chosen = self.choice.subject;
        if reading.shape.is_restated(chosen) {
            return self.put_parts(PartTelling::OfRule(reading), item.parts());
        }
        let whats = rule_whats(self.alloc, reading.marks, item.parts())?;
        let effect = Effect::of(chosen, reading.shape);
        self.put_item(SpanKind::Told(Told::new(whats, effect)), item)
    }

    /// Ends the text, and returns how it was cut.
    pub fn finish(mut self) -> Result<CutText, NoMemory>
        ensures spans { IfOk result (λ text. text.spans.items ≡ (finished self).spans) }
        ensures changes_profile { IfOk result (λ text. text.changes_profile ≡ (finished self).changes_profile) }
        ensures has_hat { IfOk result (λ text. text.has_hat ≡ (finished self).has_hat) }
    {
        match self.phase {
            Phase::Skipping(run) => self.end_run(run.what)?,
            _ => self.put(SpanKind::Kept)?,
        }
        Ok(CutText {
            spans: self.spans,
            changes_profile: self.changes_profile,
            has_hat: self.has_hat,
        })
    }
}
